//! What a theory has under a name or a number.

ghost use Rattle.std.specs.Prelude.{◌≡◌, option_copied, map};
ghost use Rattle.am_term.specs.NameLists.{is_among};
ghost use Rattle.am_theory.specs.Lookups.{argument_sorts as sorts_taken, copy_names, copy_of as copy_at, fortran_names, function_named as function_with, listed_name, literal_declared as literal_with, rep_of as rep_at, result_sort as sort_given, routine_named as routine_with};
ghost use Rattle.am_theory.specs.declared.theory.FortranFunction.{FortranFunction};
ghost use Rattle.am_theory.specs.declared.theory.Routine.{Routine};

use crate::theory::{FortranFunction, LiteralDecl, Rep, Routine, Theory};
use am_term::{Name, SortId, SymId};

/// The routine of this name, if the theory has one. Takes no memory, as all in this file.
pub fn routine_named<'a>(theory: &'a Theory, name: &Name) -> Option<&'a Routine>
    ensures { option_copied result ≡ routine_with theory.now name.now }
{
    let mut rest = theory.routines.as_slice();
    while let [routine, behind @ ..] = rest {
        if routine.name.as_str() == name.as_str() {
            return Some(routine);
        }
        rest = behind;
    }
    None
}

/// The listed FORTRAN function of this name, if the theory has one.
pub fn function_named<'a>(theory: &'a Theory, name: &Name) -> Option<&'a FortranFunction>
    ensures { option_copied result ≡ function_with theory.now name.now }
{
    let mut rest = theory.functions.as_slice();
    while let [function, behind @ ..] = rest {
        if function.name.as_str() == name.as_str() {
            return Some(function);
        }
        rest = behind;
    }
    None
}

/// The representation of a sort, if it is concrete.
pub fn rep_of(theory: &Theory, sort: SortId) -> Option<Rep>
    ensures { result ≡ rep_at theory.now sort }
{
    match theory.reps.get(sort.0 as usize) {
        Some(Some(rep)) => Some(*rep),
        Some(None) => None,
        None => None,
    }
}

/// The copy routine of a sort, if it has one.
pub fn copy_of(theory: &Theory, sort: SortId) -> Option<&Name>
    ensures { option_copied result ≡ copy_at theory.now sort }
{
    match theory.copies.get(sort.0 as usize) {
        Some(Some(name)) => Some(name),
        Some(None) => None,
        None => None,
    }
}

/// The sort of what a symbol gives; a relation gives nothing.
pub fn result_sort(theory: &Theory, symbol: SymId) -> Option<SortId>
    ensures { result ≡ sort_given theory.now.sig symbol }
{
    match theory.sig.symbols.get(symbol.0 as usize) {
        Some(found) => found.result,
        None => None,
    }
}

/// The sorts of a symbol's arguments.
pub fn argument_sorts(theory: &Theory, symbol: SymId) -> &[SortId]
    ensures { result.now ≡ sorts_taken theory.now.sig symbol }
{
    match theory.sig.symbols.get(symbol.0 as usize) {
        Some(found) => found.args.as_slice(),
        None => &[],
    }
}

/// Whether some sort has the copy routine of this name.
pub fn is_copy(theory: &Theory, name: &Name) -> bool
    ensures { result ≡ is_among name.now (copy_names theory.now) }
{
    let mut rest = theory.copies.as_slice();
    while let [copy, behind @ ..] = rest {
        if is_named(copy, name) {
            return true;
        }
        rest = behind;
    }
    false
}

fn is_named(copy: &Option<Name>, name: &Name) -> bool
    ensures { result ≡ is_among name.now (listed_name copy.now) }
{
    match copy {
        Some(copy) => name.as_str() == copy.as_str(),
        None => false,
    }
}

/// Whether it is the name of a routine, of a listed function or of a copy routine.
#[tactic(auto, using(crate::proofs::JoinedNames::joined_names))]
pub fn is_fortran_name(theory: &Theory, name: &Name) -> bool
    ensures { result ≡ is_among name.now (fortran_names theory.now) }
{
    names_routine(theory, name) || names_function(theory, name) || is_copy(theory, name)
}

fn names_routine(theory: &Theory, name: &Name) -> bool
    ensures { result ≡ is_among name.now (map (λ (r : Routine). r.name) theory.now.routines) }
{
    let mut rest = theory.routines.as_slice();
    while let [routine, behind @ ..] = rest {
        if name.as_str() == routine.name.as_str() {
            return true;
        }
        rest = behind;
    }
    false
}

fn names_function(theory: &Theory, name: &Name) -> bool
    ensures { result ≡ is_among name.now (map (λ (f : FortranFunction). f.name) theory.now.functions) }
{
    let mut rest = theory.functions.as_slice();
    while let [function, behind @ ..] = rest {
        if name.as_str() == function.name.as_str() {
            return true;
        }
        rest = behind;
    }
    false
}

/// The literal of a symbol, if it is one.
pub fn literal_of(theory: &Theory, symbol: SymId) -> Option<&LiteralDecl>
    ensures { option_copied result ≡ literal_with theory.now symbol }
{
    let mut rest = theory.literals.as_slice();
    while let [literal, behind @ ..] = rest {
        if literal.symbol.0 == symbol.0 {
            return Some(literal);
        }
        rest = behind;
    }
    None
}
