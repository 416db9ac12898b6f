ghost use Rattle.std.specs.Prelude.{◌≡◌, ◌||◌, ◌∷◌, [], Some, map, not};
ghost use Rattle.std.specs.List.{list_any};
ghost use Rattle.am_term.specs.declared.id.SymId.{SymId};
ghost use Rattle.am_term.specs.declared.term.Term.TheVariants.{App};
ghost use Rattle.am_term.specs.NameLists.{is_among, are_distinct};
ghost use Rattle.am_theory.specs.Lookups.{result_sort as sort_given, function_named as function_with};
ghost use Rattle.am_exec.specs.Run.{name_in as named_by, output_sort};
ghost use Rattle.am_exec.specs.States.{is_held as is_name_held, operand_terms as operands_stand};
ghost use Rattle.am_exec.specs.Effects.{literal_sort as sort_of_literal, applied_sort as sort_applied, assigned_sort as sort_assigned};
ghost use Rattle.am_exec.specs.ItemFaults.{names_set, is_large as is_term_large, sets_twice as is_set_twice, is_target as is_lawful_target, are_targets, is_badly_declared as is_declared_badly, is_too_large as is_large_put};

use crate::declarations::{declared_type, lacks_dummy, may_be_set};
use crate::faults::{behind, copied_sort, copied_term, front, held_sort, is_held, literal_for};
use crate::operands::{MOST_NODES, name_in, operands_nodes};
use crate::scene::Scene;
use crate::store::Store;
use crate::types::{have_one_type, type_of_name};
use am_fortran::{Operand, Statement};
use am_term::{Name, SortId, SymId, Term, weight};
use am_theory::{Theory, argument_sorts, function_named, result_sort, routine_named};

/// Whether a target holds a term already or stands twice. Takes no memory, as all in this file.
#[tactic(auto, using(crate::proofs::Putting::setting))]
pub fn sets_twice(theory: &Theory, store: &Store, statement: &Statement) -> bool
    ensures { result ≡ is_set_twice theory.now store.now statement.now }
{
    match statement {
        Statement::Call { routine, args } => match routine_named(theory, routine) {
            Some(routine) => set_twice(store, behind(args.as_slice(), routine.inputs.len())),
            None => set_twice(store, behind(args.as_slice(), 1)),
        },
        Statement::Assign { target, .. } => is_held(store, target),
        Statement::Apply { target, .. } => is_held(store, target),
    }
}

#[tactic(auto, using(crate::proofs::Putting::setting))]
fn set_twice(store: &Store, targets: &[Operand]) -> bool
    ensures { result ≡ (list_any (is_name_held store.now) (names_set targets.now) || not
        (are_distinct (names_set targets.now))) }
{
    let mut rest = targets;
    while let [target, behind @ ..] = rest {
        if let Some(name) = name_in(target) {
            if is_held(store, name) || is_target_of(name, behind) {
                return true;
            }
        }
        rest = behind;
    }
    false
}

fn is_target_of(name: &Name, targets: &[Operand]) -> bool
    ensures { result ≡ is_among name.now (names_set targets.now) }
{
    let mut rest = targets;
    while let [target, behind @ ..] = rest {
        if let Some(other) = name_in(target) {
            if name.as_str() == other.as_str() {
                return true;
            }
        }
        rest = behind;
    }
    false
}

/// Whether a dummy has no declaration, a function applied isn't declared, or a target isn't a declared
/// name that may be set with the type of what is put there.
pub fn is_badly_declared(scene: &Scene, store: &Store, statement: &Statement) -> bool
    ensures { result ≡ is_declared_badly scene.now.theory.now scene.now.diagram.now scene.now.unit.now
        scene.now.ins.now store.now statement.now }
{
    if lacks_dummy(scene.unit) {
        return true;
    }
    match statement {
        Statement::Call { routine, args } => match routine_named(scene.theory, routine) {
            Some(routine) => {
                let targets = behind(args.as_slice(), routine.inputs.len());
                !are_outputs(scene, targets, routine.outputs.as_slice())
            }
            None => {
                let sort = copied_sort(scene, store, args.as_slice());
                !is_copy_target(scene, behind(args.as_slice(), 1), sort)
            }
        },
        Statement::Assign { target, from } => {
            !is_target(scene, target, assigned_sort(scene, store, target, from))
        }
        Statement::Apply {
            target,
            function,
            ..
        } => {
            !scene.behind.contains(function)
                || !is_target(scene, target, applied_sort(scene.theory, function))
        }
    }
}

fn are_outputs(scene: &Scene, targets: &[Operand], outputs: &[SymId]) -> bool
    ensures { result ≡ are_targets scene.now.theory.now scene.now.diagram.now scene.now.unit.now
        (map named_by targets.now) (map (sort_given scene.now.theory.now.sig) outputs.now) }
{
    let mut left = targets;
    let mut rest = outputs;
    while let [target, further @ ..] = left {
        match rest {
            [] => return false,
            [output, behind @ ..] => {
                if !is_operand_target(scene, target, result_sort(scene.theory, *output)) {
                    return false;
                }
                left = further;
                rest = behind;
            }
        }
    }
    rest.is_empty()
}

fn is_copy_target(scene: &Scene, targets: &[Operand], sort: Option<SortId>) -> bool
    ensures { result ≡ are_targets scene.now.theory.now scene.now.diagram.now scene.now.unit.now
        (map named_by targets.now) (sort ∷ []) }
{
    match targets {
        [target, rest @ ..] => is_operand_target(scene, target, sort) && rest.is_empty(),
        [] => false,
    }
}

fn is_operand_target(scene: &Scene, target: &Operand, sort: Option<SortId>) -> bool
    ensures { result ≡ is_lawful_target scene.now.theory.now scene.now.diagram.now scene.now.unit.now
        (named_by target.now) sort }
{
    match name_in(target) {
        Some(name) => is_target(scene, name, sort),
        None => false,
    }
}

fn is_target(scene: &Scene, target: &Name, sort: Option<SortId>) -> bool
    ensures { result ≡ is_lawful_target scene.now.theory.now scene.now.diagram.now scene.now.unit.now
        (Some target.now) sort }
{
    match sort {
        Some(sort) => {
            let wanted = type_of_name(scene.theory, scene.unit, target, sort);
            may_be_set(scene, target) && have_one_type(declared_type(scene, target), wanted)
        }
        None => false,
    }
}

fn assigned_sort(scene: &Scene, store: &Store, target: &Name, from: &Operand) -> Option<SortId>
    ensures { result ≡ sort_assigned scene.now.theory.now scene.now.ins.now store.now
        (output_sort scene.now.diagram.now target.now) from.now }
{
    match from {
        Operand::Name(name) => held_sort(scene, store, name),
        Operand::Int(_) => literal_sort(scene.theory, literal_for(scene, target, from)),
        Operand::Text(_) => literal_sort(scene.theory, literal_for(scene, target, from)),
    }
}

fn literal_sort(theory: &Theory, symbol: Option<SymId>) -> Option<SortId>
    ensures { result ≡ sort_of_literal theory.now symbol }
{
    match symbol {
        Some(symbol) => result_sort(theory, symbol),
        None => None,
    }
}

fn applied_sort(theory: &Theory, function: &Name) -> Option<SortId>
    ensures { result ≡ sort_applied theory.now (function_with theory.now function.now) }
{
    match function_named(theory, function) {
        Some(function) => result_sort(theory, function.symbol),
        None => None,
    }
}

/// Whether a term that a target is to hold has more nodes than it may have.
#[tactic(auto, using(crate::proofs::Putting::measuring))]
pub fn is_too_large(scene: &Scene, store: &Store, statement: &Statement) -> bool
    ensures { result ≡ is_large_put scene.now.theory.now scene.now.diagram.now store.now statement.now }
{
    match statement {
        Statement::Call { routine, args } => match routine_named(scene.theory, routine) {
            Some(routine) => {
                let places = routine.inputs.as_slice();
                let inputs = front(args.as_slice(), places.len());
                let outputs = routine.outputs.as_slice();
                has_large_output(scene.theory, store, places, inputs, outputs)
            }
            None => match copied_term(store, args.as_slice()) {
                Some(term) => is_large(term),
                None => false,
            },
        },
        Statement::Assign { from, .. } => match from {
            Operand::Name(name) => match store.get(name) {
                Some(term) => is_large(term),
                None => false,
            },
            Operand::Int(_) => false,
            Operand::Text(_) => false,
        },
        Statement::Apply { function, args, .. } => match function_named(scene.theory, function) {
            Some(function) => {
                let places = argument_sorts(scene.theory, function.symbol);
                operands_nodes(scene.theory, store, places, args.as_slice()) >= MOST_NODES
            }
            None => false,
        },
    }
}

#[tactic(auto, using(crate::proofs::Putting::measuring))]
fn has_large_output(
    theory: &Theory,
    store: &Store,
    places: &[SortId],
    inputs: &[Operand],
    outputs: &[SymId],
) -> bool
    ensures { result ≡ list_any is_term_large (map (λ (f : SymId).
        App f (operands_stand theory.now store.now places.now inputs.now)) outputs.now) }
{
    outputs.len() != 0 && operands_nodes(theory, store, places, inputs) >= MOST_NODES
}

#[tactic(auto, using(crate::proofs::Putting::measuring))]
fn is_large(term: &Term) -> bool
    ensures { result ≡ is_term_large term.now }
{
    weight(term, MOST_NODES) > MOST_NODES
}
