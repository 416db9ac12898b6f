ghost use Rattle.std.specs.Prelude.{◌≡◌, ◌++◌, ◌∷◌, [], Some, map, drop, length, IfOk};
ghost use Rattle.am_term.specs.declared.id.SymId.{SymId};
ghost use Rattle.am_term.specs.declared.term.Term.TheVariants.{App};
ghost use Rattle.am_exec.specs.Run.{name_in as named_by, output_sort};
ghost use Rattle.am_exec.specs.States.{listed_term, entry, entries_held};
ghost use Rattle.am_exec.specs.Effects.{call_terms, copied_term as term_copied, literal_term_of, assigned_term as term_assigned, target_names, put_terms};

use crate::faults::{behind, copied_term, front, literal_for};
use crate::operands::{name_in, operand_terms};
use crate::scene::Scene;
use crate::store::Store;
use am_fortran::{Operand, Statement};
use am_term::{Name, NoMemory, SymId, Term, copies, copy};
use am_theory::{Routine, Theory, argument_sorts, function_named, routine_named};
use sqlite_items::Items;
use std::alloc::Global;

/// The names that a statement sets, each with the term that it is to hold.
#[tactic(auto, using(crate::proofs::Stores::storing))]
pub fn effects(
    alloc: Global,
    scene: &Scene,
    store: &Store,
    statement: &Statement,
) -> Result<Items<(Name, Term)>, NoMemory>
    ensures { IfOk result (λ made. made ≡ entries_held (target_names scene.now.theory.now statement.now)
        (put_terms scene.now.theory.now scene.now.diagram.now store.now statement.now)) }
{
    match statement {
        Statement::Call { routine, args } => match routine_named(scene.theory, routine) {
            Some(routine) => called(alloc, scene.theory, store, routine, args.as_slice()),
            None => copied(alloc, store, args.as_slice()),
        },
        Statement::Assign { target, from } => assigned(alloc, scene, store, target, from),
        Statement::Apply {
            target,
            function,
            args,
        } => match function_named(scene.theory, function) {
            Some(function) => {
                let places = argument_sorts(scene.theory, function.symbol);
                let args = operand_terms(alloc, scene.theory, store, places, args.as_slice())?;
                let f = function.symbol;
                named(alloc, target, Term::App { f, args })
            }
            None => Ok(Items::new(alloc)),
        },
    }
}

// One name with its term.
fn named(alloc: Global, name: &Name, term: Term) -> Result<Items<(Name, Term)>, NoMemory>
    ensures { IfOk result (λ made. made ≡ (name.now, term) ∷ []) }
{
    let mut made = Items::new(alloc);
    let name = Name::new(alloc, name.as_str())?;
    made.push((name, term))?;
    Ok(made)
}

// A routine's outputs with the output symbols at the inputs' terms.
#[tactic(auto, using(crate::proofs::Stores::storing))]
fn called(
    alloc: Global,
    theory: &Theory,
    store: &Store,
    routine: &Routine,
    args: &[Operand],
) -> Result<Items<(Name, Term)>, NoMemory>
    ensures { IfOk result (λ made. made ≡ entries_held (map named_by (drop (length routine.now.inputs) args.now))
        (call_terms theory.now store.now (Some routine.now) args.now)) }
{
    let places = routine.inputs.as_slice();
    let inputs = front(args, places.len());
    let terms = operand_terms(alloc, theory, store, places, inputs)?;
    let targets = behind(args, places.len());
    outputs(alloc, routine.outputs.as_slice(), terms.as_slice(), targets)
}

// Each target that is a name with its output symbol at the arguments.
#[tactic(auto, using(crate::proofs::Stores::storing))]
fn outputs(
    alloc: Global,
    outputs: &[SymId],
    args: &[Term],
    targets: &[Operand],
) -> Result<Items<(Name, Term)>, NoMemory>
    ensures { IfOk result (λ made. made ≡ entries_held (map named_by targets.now) (map (λ (f : SymId).
        App f args.now) outputs.now)) }
{
    let mut made = Items::new(alloc);
    let mut left = outputs;
    let mut rest = targets;
    while let [f, further @ ..] = left {
        match rest {
            [] => return Ok(made),
            [target, behind @ ..] => {
                if let Some(name) = name_in(target) {
                    let args = copies(alloc, args)?;
                    let name = Name::new(alloc, name.as_str())?;
                    made.push((name, Term::App { f: *f, args }))?;
                }
                left = further;
                rest = behind;
            }
        }
    }
    Ok(made)
}

// The second argument of a copy, where it is a name, with what the first one holds.
#[tactic(auto, using(crate::proofs::Stores::storing))]
fn copied(alloc: Global, store: &Store, args: &[Operand]) -> Result<Items<(Name, Term)>, NoMemory>
    ensures { IfOk result (λ made. made ≡ entries_held (map named_by (drop 1 args.now))
        (listed_term (term_copied store.now args.now))) }
{
    let term = match copied_term(store, args) {
        Some(term) => copy(alloc, term)?,
        None => return Ok(Items::new(alloc)),
    };
    match sqlite_items::at(args, 1) {
        Some(target) => targeted(alloc, target, term),
        None => Ok(Items::new(alloc)),
    }
}

// A target with its term, where it is a name.
fn targeted(alloc: Global, target: &Operand, term: Term) -> Result<Items<(Name, Term)>, NoMemory>
    ensures { IfOk result (λ made. made ≡ entry (named_by target.now) term) }
{
    match name_in(target) {
        Some(name) => named(alloc, name, term),
        None => Ok(Items::new(alloc)),
    }
}

// The target with what is assigned to it.
#[tactic(auto, using(crate::proofs::Stores::storing))]
fn assigned(
    alloc: Global,
    scene: &Scene,
    store: &Store,
    target: &Name,
    from: &Operand,
) -> Result<Items<(Name, Term)>, NoMemory>
    ensures { IfOk result (λ made. made ≡ entries_held (Some target.now ∷ [])
        (listed_term (term_assigned scene.now.theory.now store.now
        (output_sort scene.now.diagram.now target.now) from.now))) }
{
    match assigned_term(alloc, scene, store, target, from)? {
        Some(term) => named(alloc, target, term),
        None => Ok(Items::new(alloc)),
    }
}

// A copy of the term that is assigned to a target, if there is one.
fn assigned_term(
    alloc: Global,
    scene: &Scene,
    store: &Store,
    target: &Name,
    from: &Operand,
) -> Result<Option<Term>, NoMemory>
    ensures { IfOk result (λ term. term ≡ term_assigned scene.now.theory.now store.now
        (output_sort scene.now.diagram.now target.now) from.now) }
{
    match from {
        Operand::Name(name) => match store.get(name) {
            Some(term) => Ok(Some(copy(alloc, term)?)),
            None => Ok(None),
        },
        Operand::Int(_) => Ok(literal_term(alloc, literal_for(scene, target, from))),
        Operand::Text(_) => Ok(literal_term(alloc, literal_for(scene, target, from))),
    }
}

// The term of a literal symbol. Takes no memory.
fn literal_term(alloc: Global, symbol: Option<SymId>) -> Option<Term>
    ensures { result ≡ literal_term_of symbol }
{
    match symbol {
        Some(f) => Some(Term::App {
            f,
            args: Items::new(alloc),
        }),
        None => None,
    }
}
