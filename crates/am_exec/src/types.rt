ghost use Rattle.std.specs.Prelude.{◌≡◌};
ghost use Rattle.am_exec.specs.Types.{dummy_type as dummy_kind, local_type as local_kind, is_scalar as is_kept_in_scalar, is_text_of_any_length as is_text_of_any, same_type as are_same_type, type_by, type_of_name as type_under};
ghost use Rattle.am_exec.specs.ItemFaults.{have_one_type as have_same_type, function_type as function_kind};
ghost use Rattle.am_theory.specs.Lookups.{rep_of as rep_at};

use crate::lookups::is_one_of;
use am_fortran::{FortranType, Unit};
use am_term::{Name, SortId};
use am_theory::{Rep, Theory, rep_of};

/// The type that a representation gives to a dummy. Takes no memory, as all in this file.
pub fn dummy_type(rep: Rep) -> FortranType
    ensures { result ≡ dummy_kind rep }
{
    match rep {
        Rep::Double => FortranType::Double,
        Rep::Integer => FortranType::Integer,
        Rep::Logical => FortranType::Logical,
        Rep::Char(_) => FortranType::CharAny,
        Rep::DoubleVec(extent) => FortranType::DoubleVec(extent),
        Rep::DoubleMat(rows, columns) => FortranType::DoubleMat(rows, columns),
        Rep::IntegerVec(extent) => FortranType::IntegerVec(extent),
    }
}

/// The type that a representation gives to a local or a function.
pub fn local_type(rep: Rep) -> FortranType
    ensures { result ≡ local_kind rep }
{
    match rep {
        Rep::Double => FortranType::Double,
        Rep::Integer => FortranType::Integer,
        Rep::Logical => FortranType::Logical,
        Rep::Char(length) => FortranType::Char(length),
        Rep::DoubleVec(extent) => FortranType::DoubleVec(extent),
        Rep::DoubleMat(rows, columns) => FortranType::DoubleMat(rows, columns),
        Rep::IntegerVec(extent) => FortranType::IntegerVec(extent),
    }
}

/// Whether it is neither a vector nor a matrix.
pub fn is_scalar(rep: Rep) -> bool
    ensures { result ≡ is_kept_in_scalar rep }
{
    match rep {
        Rep::Double => true,
        Rep::Integer => true,
        Rep::Logical => true,
        Rep::Char(_) => true,
        Rep::DoubleVec(_) => false,
        Rep::DoubleMat(_, _) => false,
        Rep::IntegerVec(_) => false,
    }
}

/// Whether it is `CHARACTER*(*)`.
pub fn is_text_of_any_length(ty: FortranType) -> bool
    ensures { result ≡ is_text_of_any ty }
{
    match ty {
        FortranType::CharAny => true,
        _ => false,
    }
}

fn same_type(a: FortranType, b: FortranType) -> bool
    ensures { result ≡ are_same_type a b }
{
    match (a, b) {
        (FortranType::Double, FortranType::Double) => true,
        (FortranType::Integer, FortranType::Integer) => true,
        (FortranType::Logical, FortranType::Logical) => true,
        (FortranType::Char(m), FortranType::Char(n)) => m == n,
        (FortranType::CharAny, FortranType::CharAny) => true,
        (FortranType::DoubleVec(m), FortranType::DoubleVec(n)) => m == n,
        (FortranType::DoubleMat(k, m), FortranType::DoubleMat(l, n)) => k == l && m == n,
        (FortranType::IntegerVec(m), FortranType::IntegerVec(n)) => m == n,
        (_, _) => false,
    }
}

/// Whether both types are there and are one.
pub fn have_one_type(a: Option<FortranType>, b: Option<FortranType>) -> bool
    ensures { result ≡ have_same_type a b }
{
    match a {
        Some(a) => match b {
            Some(b) => same_type(a, b),
            None => false,
        },
        None => false,
    }
}

/// The type that a sort gives to a dummy; an abstract sort gives none.
pub fn type_of_dummy(theory: &Theory, sort: SortId) -> Option<FortranType>
    ensures { result ≡ type_by dummy_kind (rep_at theory.now sort) }
{
    match rep_of(theory, sort) {
        Some(rep) => Some(dummy_type(rep)),
        None => None,
    }
}

/// The type that a sort gives to a local or a function; an abstract sort gives none.
pub fn type_of_local(theory: &Theory, sort: SortId) -> Option<FortranType>
    ensures { result ≡ type_by local_kind (rep_at theory.now sort) }
{
    match rep_of(theory, sort) {
        Some(rep) => Some(local_type(rep)),
        None => None,
    }
}

/// The type that a function has whose result has this sort.
pub fn type_of_function(theory: &Theory, sort: Option<SortId>) -> Option<FortranType>
    ensures { result ≡ function_kind theory.now sort }
{
    match sort {
        Some(sort) => type_of_local(theory, sort),
        None => None,
    }
}

/// The type that a sort gives to a name of the unit, a dummy or not.
pub fn type_of_name(theory: &Theory, unit: &Unit, name: &Name, sort: SortId) -> Option<FortranType>
    ensures { result ≡ type_under theory.now unit.now.dummies name.now sort }
{
    if is_one_of(name, unit.dummies.as_slice()) {
        type_of_dummy(theory, sort)
    } else {
        type_of_local(theory, sort)
    }
}
