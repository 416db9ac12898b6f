ghost use Rattle.std.specs.Prelude.{◌≡◌, ◌++◌, [], IfOk, OnOk, map};
ghost use Rattle.std.specs.List.{flat_map};
ghost use Rattle.am_theory.specs.Facts.{WellFormed as TheoryFacts};
ghost use Rattle.am_diagram.specs.Facts.{WellFormed as DiagramFacts};
ghost use Rattle.am_diagram.specs.Listed.{entry_names};
ghost use Rattle.am_exec.specs.Lawful.{dummies_of};
ghost use Rattle.am_plan.specs.Answers.{IsAnswerFor};
ghost use Rattle.am_plan.specs.Calls.{made_by};
ghost use Rattle.am_plan.specs.Names.{locals, named_behind};
ghost use Rattle.am_plan.specs.Plan.{IsPlan, dummy_decl, local_decl, functions_used, called_function_decl, statement_of as statement_for, copies};

use crate::application::Application;
use crate::call::PlannedCall;
use crate::calling::calls;
use crate::declaring::{functions, push_dummies, push_locals};
use crate::named_terms::{NamedTerms, indexed};
use crate::naming::named;
use crate::stating::{push_copies, statements};
use am_diagram::Diagram;
use am_fortran::{Decl, Statement, Unit};
use am_term::{Name, NoMemory, SortId, Term};
use am_theory::Theory;
use sqlite_items::Items;
use std::alloc::Global;

/// The subroutine of an answer: one statement for each different call that the answer's terms ask for,
/// then the copies into the outputs that no call has set. Its layout is this project's own.
#[tactic(auto, using(crate::proofs::UnitPlanned::planning))]
pub fn plan(
    alloc: Global,
    theory: &Theory,
    diagram: &Diagram,
    answer: &[Term],
) -> Result<Unit, NoMemory>
    requires theory { TheoryFacts theory.now }
    requires diagram { DiagramFacts theory.now diagram.now }
    requires answer { IsAnswerFor theory.now diagram.now answer.now }
    ensures { IfOk result (λ u. IsPlan theory.now diagram.now answer.now u) }
{
    let calls = calls(alloc, theory, answer)?;
    let names = names(alloc, theory, diagram, answer, calls.as_slice())?;
    let name = copy_name(alloc, &diagram.name)?;
    let dummies = dummies(alloc, diagram)?;
    let declarations = declarations(
        alloc,
        theory,
        diagram,
        answer,
        names.entries.as_slice(),
        calls.as_slice(),
    )?;
    let statements = body(alloc, theory, diagram, answer, &names, calls.as_slice())?;
    Ok(Unit {
        name,
        dummies,
        declarations,
        statements,
    })
}

// The terms that the calls make, with their names.
#[tactic(auto, using(crate::proofs::UnitPlanned::planning))]
fn names<'a>(
    alloc: Global,
    theory: &Theory,
    diagram: &Diagram,
    answer: &[Term],
    calls: &[PlannedCall<'a>],
) -> Result<NamedTerms<'a>, NoMemory>
    ensures { IfOk result (λ ns. ns.entries ≡ named_behind diagram.now.outputs answer.now []
        (flat_map (made_by theory.now) calls.now)) }
{
    let entries = named(alloc, theory, diagram.outputs.as_slice(), answer, calls)?;
    indexed(alloc, entries)
}

fn copy_name(alloc: Global, name: &Name) -> Result<Name, NoMemory>
    ensures { IfOk result (λ n. n ≡ name.now) }
{
    Name::new(alloc, name.as_str())
}

// The names of the inputs and then of the outputs.
#[tactic(auto, using(crate::proofs::UnitPlanned::planning))]
fn dummies(alloc: Global, diagram: &Diagram) -> Result<Items<Name>, NoMemory>
    ensures { IfOk result (λ ns. ns ≡ entry_names (dummies_of diagram.now)) }
{
    let mut names = Items::new(alloc);
    push_names(alloc, diagram.inputs.as_slice(), &mut names)?;
    push_names(alloc, diagram.outputs.as_slice(), &mut names)?;
    Ok(names)
}

fn push_names(
    alloc: Global,
    entries: &[(Name, SortId)],
    names: &mut Items<Name>,
) -> Result<(), NoMemory>
    ensures { OnOk result (names.new ≡ names.old ++ entry_names entries.now) }
{
    let mut rest = entries;
    while let [entry, behind @ ..] = rest {
        names.push(copy_name(alloc, &entry.0)?)?;
        rest = behind;
    }
    Ok(())
}

// The declarations of the dummies, of the locals and of the functions that are called.
#[tactic(auto, using(crate::proofs::UnitPlanned::planning))]
fn declarations(
    alloc: Global,
    theory: &Theory,
    diagram: &Diagram,
    answer: &[Term],
    names: &[(Name, Application)],
    calls: &[PlannedCall],
) -> Result<Items<Decl>, NoMemory>
    ensures { IfOk result (λ es. es ≡ map (dummy_decl theory.now) (dummies_of diagram.now) ++ map
        (local_decl theory.now) (locals diagram.now.outputs answer.now names.now) ++ map
        (called_function_decl theory.now) (functions_used theory.now calls.now)) }
{
    let mut made = Items::new(alloc);
    push_dummies(alloc, theory, diagram.inputs.as_slice(), &mut made)?;
    push_dummies(alloc, theory, diagram.outputs.as_slice(), &mut made)?;
    push_locals(
        alloc,
        theory,
        diagram.outputs.as_slice(),
        answer,
        names,
        &mut made,
    )?;
    made.append(functions(alloc, theory, calls)?)?;
    Ok(made)
}

// The statements of the calls and then the copies.
#[tactic(auto, using(crate::proofs::UnitPlanned::planning))]
fn body(
    alloc: Global,
    theory: &Theory,
    diagram: &Diagram,
    answer: &[Term],
    names: &NamedTerms,
    calls: &[PlannedCall],
) -> Result<Items<Statement>, NoMemory>
    ensures { IfOk result (λ ss. ss ≡ flat_map (statement_for theory.now diagram.now names.now.entries) calls.now
        ++ copies theory.now diagram.now names.now.entries diagram.now.outputs answer.now) }
{
    let mut made = statements(alloc, theory, diagram, names, calls)?;
    push_copies(alloc, theory, diagram, names, answer, &mut made)?;
    Ok(made)
}
