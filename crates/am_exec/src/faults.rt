ghost use Rattle.std.specs.Prelude.{◌≡◌, take, drop, option_copied};
ghost use Rattle.am_term.specs.Sorting.{sort_of};
ghost use Rattle.am_exec.specs.Run.{output_sort};
ghost use Rattle.am_exec.specs.States.{term_held as held_under, is_held as is_name_held};
ghost use Rattle.am_exec.specs.Effects.{reads, copied_term as term_copied, literal_for as literal_asked, term_sort};
ghost use Rattle.am_exec.specs.ItemFaults.{is_unknown as is_called_unknown, has_wrong_count as is_count_wrong, first_unset as unset_first, unset_name as name_unset, operand_fits_place as is_operand_fitting, fit_operands as are_operands_fitting, fits_assign as is_assign_fitting, is_copied_by as is_sort_copied, is_scalar_sort as is_sort_scalar, has_wrong_sort as is_sort_wrong};

use crate::lookups::{literal_at, sort_listed};
use crate::operands::name_in;
use crate::scene::Scene;
use crate::store::Store;
use crate::types::is_scalar;
use am_fortran::{Operand, Statement};
use am_term::{Ctx, Name, SortId, SymId, Term, fits, well_sorted};
use am_theory::{Theory, argument_sorts, copy_of, function_named, is_copy, rep_of, routine_named};

/// Whether the name called or applied is none of the theory's for that kind of statement. Takes no
/// memory, as all in this file.
pub fn is_unknown(theory: &Theory, statement: &Statement) -> bool
    ensures { result ≡ is_called_unknown theory.now statement.now }
{
    match statement {
        Statement::Call { routine, .. } => match routine_named(theory, routine) {
            Some(_) => false,
            None => !is_copy(theory, routine),
        },
        Statement::Assign { .. } => false,
        Statement::Apply { function, .. } => function_named(theory, function).is_none(),
    }
}

/// Whether another number of arguments stands there than is asked for.
pub fn has_wrong_count(theory: &Theory, statement: &Statement) -> bool
    ensures { result ≡ is_count_wrong theory.now statement.now }
{
    match statement {
        Statement::Call { routine, args } => match routine_named(theory, routine) {
            Some(routine) => {
                args.len() < routine.inputs.len()
                    || args.len() - routine.inputs.len() != routine.outputs.len()
            }
            None => args.len() != 2,
        },
        Statement::Assign { .. } => false,
        Statement::Apply { function, args, .. } => match function_named(theory, function) {
            Some(function) => args.len() != argument_sorts(theory, function.symbol).len(),
            None => args.len() != 0,
        },
    }
}

/// The first operand that is a name which holds no term.
pub fn first_unset<'a>(theory: &Theory, store: &Store, statement: &'a Statement) -> Option<&'a Name>
    ensures { option_copied result ≡ unset_first store.now (reads theory.now statement.now) }
{
    match statement {
        Statement::Call { routine, args } => match routine_named(theory, routine) {
            Some(routine) => first_unset_of(store, front(args.as_slice(), routine.inputs.len())),
            None => first_unset_of(store, front(args.as_slice(), 1)),
        },
        Statement::Assign { from, .. } => unset_name(store, from),
        Statement::Apply { args, .. } => first_unset_of(store, args.as_slice()),
    }
}

fn first_unset_of<'a>(store: &Store, operands: &'a [Operand]) -> Option<&'a Name>
    ensures { option_copied result ≡ unset_first store.now operands.now }
{
    let mut rest = operands;
    while let [operand, behind @ ..] = rest {
        if let Some(name) = unset_name(store, operand) {
            return Some(name);
        }
        rest = behind;
    }
    None
}

fn unset_name<'a>(store: &Store, operand: &'a Operand) -> Option<&'a Name>
    ensures { option_copied result ≡ name_unset store.now operand.now }
{
    match operand {
        Operand::Name(name) => {
            if is_held(store, name) {
                None
            } else {
                Some(name)
            }
        }
        Operand::Int(_) => None,
        Operand::Text(_) => None,
    }
}

/// Whether the name holds a term.
pub fn is_held(store: &Store, name: &Name) -> bool
    ensures { result ≡ is_name_held store.now name.now }
{
    store.get(name).is_some()
}

/// The first of the operands, as many as that.
pub fn front(operands: &[Operand], count: usize) -> &[Operand]
    ensures { result.now ≡ take count operands.now }
{
    if count <= operands.len() {
        &operands[..count]
    } else {
        operands
    }
}

/// The operands behind that many.
pub fn behind(operands: &[Operand], count: usize) -> &[Operand]
    ensures { result.now ≡ drop count operands.now }
{
    if count <= operands.len() {
        &operands[count..]
    } else {
        &[]
    }
}

/// Whether an operand's term has another sort than its place, there is no such literal, or what is
/// copied may not be.
pub fn has_wrong_sort(scene: &Scene, store: &Store, statement: &Statement) -> bool
    ensures { result ≡ is_sort_wrong scene.now.theory.now scene.now.diagram.now scene.now.ins.now store.now
        statement.now }
{
    match statement {
        Statement::Call { routine, args } => match routine_named(scene.theory, routine) {
            Some(routine) => {
                let places = routine.inputs.as_slice();
                !fit_operands(scene, store, places, front(args.as_slice(), places.len()))
            }
            None => {
                let sort = copied_sort(scene, store, front(args.as_slice(), 1));
                !is_copied_by(scene.theory, routine, sort)
            }
        },
        Statement::Assign { target, from } => !fits_assign(scene, store, target, from),
        Statement::Apply { function, args, .. } => match function_named(scene.theory, function) {
            Some(function) => {
                let places = argument_sorts(scene.theory, function.symbol);
                !fit_operands(scene, store, places, args.as_slice())
            }
            None => true,
        },
    }
}

fn fit_operands(scene: &Scene, store: &Store, places: &[SortId], operands: &[Operand]) -> bool
    ensures { result ≡ are_operands_fitting scene.now.theory.now scene.now.ins.now store.now places.now operands.now }
{
    let mut left = places;
    let mut rest = operands;
    while let [place, further @ ..] = left {
        match rest {
            [] => return false,
            [operand, behind @ ..] => {
                if !fits_operand(scene, store, *place, operand) {
                    return false;
                }
                left = further;
                rest = behind;
            }
        }
    }
    rest.is_empty()
}

fn fits_operand(scene: &Scene, store: &Store, place: SortId, operand: &Operand) -> bool
    ensures { result ≡ is_operand_fitting scene.now.theory.now scene.now.ins.now store.now place operand.now }
{
    match operand {
        Operand::Name(name) => match held_sort(scene, store, name) {
            Some(sort) => fits(&scene.theory.sig, sort, place),
            None => false,
        },
        Operand::Int(_) => literal_at(scene.theory, place, operand).is_some(),
        Operand::Text(_) => literal_at(scene.theory, place, operand).is_some(),
    }
}

/// The sort of the term that a name holds, if it holds one.
pub fn held_sort(scene: &Scene, store: &Store, name: &Name) -> Option<SortId>
    ensures { result ≡ term_sort scene.now.theory.now scene.now.ins.now (held_under store.now name.now) }
{
    match store.get(name) {
        Some(term) => sort_in(scene, term),
        None => None,
    }
}

fn sort_in(scene: &Scene, term: &Term) -> Option<SortId>
    ensures { result ≡ sort_of scene.now.theory.now.sig scene.now.ins.now term.now }
{
    let ctx = Ctx {
        sig: &scene.theory.sig,
        ins: scene.ins,
    };
    well_sorted(&ctx, term)
}

/// The term that the first argument of a copy holds, if it is a name that holds one.
pub fn copied_term<'a>(store: &'a Store, args: &[Operand]) -> Option<&'a Term>
    ensures { option_copied result ≡ term_copied store.now args.now }
{
    match args {
        [from, ..] => match name_in(from) {
            Some(name) => store.get(name),
            None => None,
        },
        [] => None,
    }
}

/// The sort of the term that the first argument of a copy holds.
pub fn copied_sort(scene: &Scene, store: &Store, args: &[Operand]) -> Option<SortId>
    ensures { result ≡ term_sort scene.now.theory.now scene.now.ins.now (term_copied store.now args.now) }
{
    match copied_term(store, args) {
        Some(term) => sort_in(scene, term),
        None => None,
    }
}

fn is_copied_by(theory: &Theory, routine: &Name, sort: Option<SortId>) -> bool
    ensures { result ≡ is_sort_copied theory.now routine.now sort }
{
    match sort {
        Some(sort) => match copy_of(theory, sort) {
            Some(copy) => copy.as_str() == routine.as_str(),
            None => false,
        },
        None => false,
    }
}

fn fits_assign(scene: &Scene, store: &Store, target: &Name, from: &Operand) -> bool
    ensures { result ≡ is_assign_fitting scene.now.theory.now scene.now.ins.now store.now
        (output_sort scene.now.diagram.now target.now) from.now }
{
    match from {
        Operand::Name(name) => is_scalar_sort(scene.theory, held_sort(scene, store, name)),
        Operand::Int(_) => literal_for(scene, target, from).is_some(),
        Operand::Text(_) => literal_for(scene, target, from).is_some(),
    }
}

fn is_scalar_sort(theory: &Theory, sort: Option<SortId>) -> bool
    ensures { result ≡ is_sort_scalar theory.now sort }
{
    match sort {
        Some(sort) => match rep_of(theory, sort) {
            Some(rep) => is_scalar(rep),
            None => false,
        },
        None => false,
    }
}

/// The literal symbol that an operand stands for where it is assigned to an output; at any other name
/// there is none.
pub fn literal_for(scene: &Scene, target: &Name, from: &Operand) -> Option<SymId>
    ensures { result ≡ literal_asked scene.now.theory.now (output_sort scene.now.diagram.now target.now) from.now }
{
    match sort_listed(target, scene.diagram.outputs.as_slice()) {
        Some(place) => literal_at(scene.theory, place, from),
        None => None,
    }
}
