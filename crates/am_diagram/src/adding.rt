ghost use Rattle.std.specs.Prelude.{◌≡◌, IfOk, map};
ghost use Rattle.am_syntax.specs.Scopes.{scope_of};
ghost use Rattle.am_syntax.specs.Meaning.{literal_meaning};
ghost use Rattle.am_diagram.specs.Drafts.{with_decl, given_scope, requirement_scope, diagram_of};

use crate::declaration::Declaration;
use crate::diagram::Diagram;
use crate::draft::Draft;
use crate::looking::sort_number;
use crate::scopes::{given_bound, requirement_bound};
use crate::tables::Tables;
use am_syntax::{Scope, WrittenLiteral, literal_meaning};
use am_term::{Literal, NoMemory};
use sqlite_items::Items;
use std::alloc::Global;

/// What there is after one more declaration.
#[tactic(auto, unfolding(crate::specs::Drafts::with_decl))]
pub fn with_decl(tables: &Tables, draft: Draft, declaration: Declaration) -> Result<Draft, NoMemory>
    ensures { IfOk result (λ next. next ≡ with_decl tables.now.theory.now draft declaration) }
{
    let mut draft = draft;
    match declaration {
        Declaration::Input { name, sort } => {
            draft.inputs.push((name, sort_number(tables, &sort)))?;
            Ok(draft)
        }
        Declaration::Object { name, sort } => {
            draft.objects.push((name, sort_number(tables, &sort)))?;
            Ok(draft)
        }
        Declaration::Output { name, sort } => {
            draft.outputs.push((name, sort_number(tables, &sort)))?;
            Ok(draft)
        }
        Declaration::Given(literal) => {
            draft.givens.push(literal)?;
            Ok(draft)
        }
        Declaration::Require(literal) => {
            draft.required.push(literal)?;
            Ok(draft)
        }
    }
}

/// The diagram of all declarations.
#[tactic(auto, unfolding(crate::specs::Drafts::diagram_of))]
pub fn diagram_of(alloc: Global, tables: &Tables, draft: Draft) -> Result<Diagram, NoMemory>
    ensures { IfOk result (λ d. d ≡ diagram_of tables.now.theory.now draft) }
{
    let givens = given_meanings(alloc, tables, &draft)?;
    let required = requirement_meanings(alloc, tables, &draft)?;
    let Draft {
        name,
        inputs,
        objects,
        outputs,
        ..
    } = draft;
    Ok(Diagram {
        name,
        inputs,
        objects,
        outputs,
        givens,
        required,
    })
}

fn given_meanings(alloc: Global, tables: &Tables, draft: &Draft) -> Result<Items<Literal>, NoMemory>
    ensures { IfOk result (λ ls. ls ≡ map
        (literal_meaning (given_scope tables.now.theory.now draft.now)) draft.now.givens) }
{
    let bound = given_bound(alloc, draft)?;
    let scope = Scope {
        sig: &tables.theory.sig,
        numbers: &tables.symbols,
        bound: &bound,
    };
    literal_meanings(alloc, &scope, draft.givens.as_slice())
}

fn requirement_meanings(
    alloc: Global,
    tables: &Tables,
    draft: &Draft,
) -> Result<Items<Literal>, NoMemory>
    ensures { IfOk result (λ ls. ls ≡ map
        (literal_meaning (requirement_scope tables.now.theory.now draft.now)) draft.now.required) }
{
    let bound = requirement_bound(alloc, draft)?;
    let scope = Scope {
        sig: &tables.theory.sig,
        numbers: &tables.symbols,
        bound: &bound,
    };
    literal_meanings(alloc, &scope, draft.required.as_slice())
}

fn literal_meanings(
    alloc: Global,
    scope: &Scope,
    literals: &[WrittenLiteral],
) -> Result<Items<Literal>, NoMemory>
    ensures { IfOk result (λ ls. ls ≡ map (literal_meaning (scope_of scope.now)) literals.now) }
{
    let mut made = Items::new(alloc);
    for literal in literals {
        made.push(literal_meaning(alloc, scope, literal)?)?;
    }
    Ok(made)
}
