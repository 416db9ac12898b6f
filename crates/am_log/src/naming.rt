ghost use Rattle.std.specs.Prelude.{◌≡◌, [], map, slice_index_or, IfOk};
ghost use Rattle.am_diagram.specs.Listed.{entry_names};
ghost use Rattle.am_log.specs.Naming.{known_names, applied as applied_to, named, named_atom as atom_named, named_literal as literal_named, named_answer as answer_named};

use crate::named::{NamedAtom, NamedLiteral, NamedTerm};
use am_diagram::Diagram;
use am_term::{Atom, Literal, Name, NoMemory, SortId, SymId, Symbol, Term};
use am_theory::Theory;
use sqlite_items::Items;
use std::alloc::Global;

/// A theory and a diagram, by which terms are named.
#[derive(Clone, Copy)]
pub struct Scene<'a> {
    pub theory: &'a Theory,
    pub diagram: &'a Diagram,
}

#[tactic(auto, using(crate::proofs::NamingSteps::namings))]
pub fn named_answer(
    alloc: Global,
    scene: &Scene,
    answer: &Option<Items<Term>>,
) -> Result<Option<Items<NamedTerm>>, NoMemory>
    ensures { IfOk result (λ a. a ≡ answer_named (known_names scene.now.theory.now scene.now.diagram.now) answer.now) }
{
    match answer {
        None => Ok(None),
        Some(terms) => {
            let terms = named_terms(alloc, scene, terms.as_slice())?;
            Ok(Some(terms))
        }
    }
}

#[tactic(auto, using(crate::proofs::NamingSteps::namings))]
pub fn named_lists(
    alloc: Global,
    scene: &Scene,
    lists: &[Items<Term>],
) -> Result<Items<Items<NamedTerm>>, NoMemory>
    ensures { IfOk result (λ ls. ls ≡ map
        (map (named (known_names scene.now.theory.now scene.now.diagram.now))) lists.now) }
{
    let mut made = Items::new(alloc);
    for terms in lists {
        made.push(named_terms(alloc, scene, terms.as_slice())?)?;
    }
    Ok(made)
}

#[tactic(auto, using(crate::proofs::NamingSteps::namings))]
pub fn named_literals(
    alloc: Global,
    scene: &Scene,
    literals: &[Literal],
) -> Result<Items<NamedLiteral>, NoMemory>
    ensures { IfOk result (λ ls. ls ≡ map
        (literal_named (known_names scene.now.theory.now scene.now.diagram.now)) literals.now) }
{
    let mut made = Items::new(alloc);
    for literal in literals {
        let atom = named_atom(alloc, scene, &literal.atom)?;
        made.push(NamedLiteral {
            positive: literal.positive,
            atom,
        })?;
    }
    Ok(made)
}

#[tactic(auto, using(crate::proofs::NamingSteps::namings))]
fn named_atom(alloc: Global, scene: &Scene, atom: &Atom) -> Result<NamedAtom, NoMemory>
    ensures { IfOk result (λ a. a ≡ atom_named (known_names scene.now.theory.now scene.now.diagram.now) atom.now) }
{
    match atom {
        Atom::Rel { r, args } => {
            let args = named_terms(alloc, scene, args.as_slice())?;
            let name = symbol_name(alloc, scene.theory.sig.symbols.as_slice(), *r)?;
            Ok(NamedAtom::Relation { name, args })
        }
        Atom::Eq { left, right } => {
            let left = named_term(alloc, scene, left)?;
            let right = named_term(alloc, scene, right)?;
            Ok(NamedAtom::Equation { left, right })
        }
    }
}

/// The term by names. Where a number has no name, the name is empty.
#[cycle(naming_terms)]
#[tactic(auto, using(crate::proofs::NamingSteps::namings))]
fn named_term(alloc: Global, scene: &Scene, term: &Term) -> Result<NamedTerm, NoMemory>
    ensures { IfOk result (λ t. t ≡ named (known_names scene.now.theory.now scene.now.diagram.now) term.now) }
{
    match term {
        Term::Var { n, sort } => {
            let sort = sort_name(alloc, scene.theory.sig.sorts.as_slice(), *sort)?;
            Ok(NamedTerm::Variable { sort, number: *n })
        }
        Term::In { k } => {
            let name = input_name(alloc, scene.diagram.inputs.as_slice(), *k)?;
            Ok(NamedTerm::Alone(name))
        }
        Term::App { f, args } => {
            let args = named_terms(alloc, scene, args.as_slice())?;
            application(alloc, scene.theory.sig.symbols.as_slice(), *f, args)
        }
    }
}

#[cycle(naming_terms)]
#[tactic(auto, using(crate::proofs::NamingSteps::namings))]
fn named_terms(alloc: Global, scene: &Scene, terms: &[Term]) -> Result<Items<NamedTerm>, NoMemory>
    ensures { IfOk result (λ ts. ts ≡ map (named (known_names scene.now.theory.now scene.now.diagram.now)) terms.now) }
{
    let mut made = Items::new(alloc);
    for term in terms {
        made.push(named_term(alloc, scene, term)?)?;
    }
    Ok(made)
}

fn application(
    alloc: Global,
    symbols: &[Symbol],
    id: SymId,
    args: Items<NamedTerm>,
) -> Result<NamedTerm, NoMemory>
    ensures { IfOk result (λ t. t ≡ applied_to (slice_index_or (map (λ y. y.name) symbols.now) id.0 []) args) }
{
    let name = symbol_name(alloc, symbols, id)?;
    Ok(applied(name, args))
}

// The name alone, or before its arguments.
#[tactic(auto, using(crate::proofs::NamingSteps::applications))]
fn applied(name: Name, args: Items<NamedTerm>) -> NamedTerm
    ensures { result ≡ applied_to name args }
{
    if args.is_empty() {
        return NamedTerm::Alone(name);
    }
    NamedTerm::Headed { head: name, args }
}

fn sort_name(alloc: Global, sorts: &[Name], id: SortId) -> Result<Name, NoMemory>
    ensures { IfOk result (λ n. n ≡ slice_index_or sorts.now id.0 []) }
{
    match sqlite_items::at(sorts, id.0 as usize) {
        Some(name) => Name::new(alloc, name.as_str()),
        None => Ok(Name::empty(alloc)),
    }
}

#[tactic(auto, using(crate::proofs::NamingSteps::names))]
fn input_name(alloc: Global, inputs: &[(Name, SortId)], number: u32) -> Result<Name, NoMemory>
    ensures { IfOk result (λ n. n ≡ slice_index_or (entry_names inputs.now) number []) }
{
    match sqlite_items::at(inputs, number as usize) {
        Some(input) => Name::new(alloc, input.0.as_str()),
        None => Ok(Name::empty(alloc)),
    }
}

#[tactic(auto, using(crate::proofs::NamingSteps::names))]
fn symbol_name(alloc: Global, symbols: &[Symbol], id: SymId) -> Result<Name, NoMemory>
    ensures { IfOk result (λ n. n ≡ slice_index_or (map (λ y. y.name) symbols.now) id.0 []) }
{
    match sqlite_items::at(symbols, id.0 as usize) {
        Some(symbol) => Name::new(alloc, symbol.name.as_str()),
        None => Ok(Name::empty(alloc)),
    }
}
