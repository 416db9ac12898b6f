ghost use Rattle.std.specs.Prelude.{◌≡◌, ℕ};
ghost use Rattle.std.specs.List.{list_any};
ghost use Rattle.am_theory.specs.declared.declaration.Typed.{Typed};
ghost use Rattle.am_theory.specs.Contents.{contents};
ghost use Rattle.am_theory.specs.Faults.{is_out_of, is_bad_rep, is_array, is_bad_sort_rep, is_abstract, suits, is_returnable, is_badly_represented, is_array_rep, lacks_copy};

use crate::declaration::{Declaration, Typed, WrittenRep};
use crate::tables::Tables;
use crate::theory::{LitValue, Rep};
use am_term::Name;

/// The greatest length of a text.
pub const LENGTH_LIMIT: u32 = 1024;

/// The greatest extent of an array.
pub const EXTENT_LIMIT: u32 = 1000;

/// The greatest length of a literal text.
pub const TEXT_LIMIT: usize = 32;

#[tactic(auto, unfolding(crate::specs::Faults::is_badly_represented), using(crate::proofs::KindSteps::kind_steps))]
pub fn is_badly_represented(tables: &Tables, declaration: &Declaration) -> bool
    ensures { result ≡ is_badly_represented (contents tables.now.theory) declaration.now }
{
    match declaration {
        Declaration::Sort { rep, copy, .. } => is_bad_sort_rep(*rep, copy),
        Declaration::Subsort { .. } => false,
        Declaration::Function { .. } => false,
        Declaration::Relation { .. } => false,
        Declaration::Literal { sort, value, .. } => !suits(value, tables.rep_named(sort)),
        Declaration::Routine {
            inputs,
            outputs,
            ..
        } => {
            has_abstract(tables, inputs.as_slice())
                || has_abstract_typed(tables, outputs.as_slice())
        }
        Declaration::Value { args, result, .. } => {
            has_abstract(tables, args.as_slice()) || !is_returnable(tables.rep_named(result))
        }
        Declaration::Axiom { .. } => false,
    }
}

// Whether the number isn't one from 1 to the most.
fn is_out_of(most: u32, number: i64) -> bool
    ensures { result ≡ is_out_of most number }
{
    match u32::try_from(number) {
        Ok(number) => !(1 <= number && number <= most),
        Err(_) => true,
    }
}

fn is_bad_rep(rep: WrittenRep) -> bool
    ensures { result ≡ is_bad_rep rep }
{
    match rep {
        WrittenRep::Double => false,
        WrittenRep::Integer => false,
        WrittenRep::Logical => false,
        WrittenRep::Char(length) => is_out_of(LENGTH_LIMIT, length),
        WrittenRep::DoubleVec(extent) => is_out_of(EXTENT_LIMIT, extent),
        WrittenRep::DoubleMat(first, second) => {
            is_out_of(EXTENT_LIMIT, first) || is_out_of(EXTENT_LIMIT, second)
        }
        WrittenRep::IntegerVec(extent) => is_out_of(EXTENT_LIMIT, extent),
    }
}

fn is_array(rep: WrittenRep) -> bool
    ensures { result ≡ is_array rep }
{
    match rep {
        WrittenRep::Double => false,
        WrittenRep::Integer => false,
        WrittenRep::Logical => false,
        WrittenRep::Char(_) => false,
        WrittenRep::DoubleVec(_) => true,
        WrittenRep::DoubleMat(_, _) => true,
        WrittenRep::IntegerVec(_) => true,
    }
}

fn is_bad_sort_rep(rep: Option<WrittenRep>, copy: &Option<Name>) -> bool
    ensures { result ≡ is_bad_sort_rep rep copy.now }
{
    match rep {
        Some(rep) => is_bad_rep(rep) || (!is_array(rep) && copy.is_some()),
        None => false,
    }
}

fn is_abstract(tables: &Tables, name: &Name) -> bool
    ensures { result ≡ is_abstract (contents tables.now.theory) name.now }
{
    tables.rep_named(name).is_none()
}

fn has_abstract(tables: &Tables, names: &[Name]) -> bool
    ensures { result ≡ list_any (is_abstract (contents tables.now.theory)) names.now }
{
    names.iter().any(|name| is_abstract(tables, name))
}

fn has_abstract_typed(tables: &Tables, typed: &[Typed]) -> bool
    ensures { result ≡ list_any (λ (v : Typed). is_abstract (contents tables.now.theory) v.sort) typed.now }
{
    typed.iter().any(|one| is_abstract(tables, &one.sort))
}

// Whether a literal's value suits the representation of its sort.
fn suits(value: &LitValue, rep: Option<Rep>) -> bool
    ensures { result ≡ suits value.now rep }
{
    match (value, rep) {
        (LitValue::Int(_), Some(Rep::Integer)) => true,
        (LitValue::Text(text), Some(Rep::Char(length))) => {
            let bytes = text.as_str().len();
            1 <= bytes && (bytes <= TEXT_LIMIT && bytes <= length as usize)
        }
        _ => false,
    }
}

// Whether a FORTRAN function can give it.
fn is_returnable(rep: Option<Rep>) -> bool
    ensures { result ≡ is_returnable rep }
{
    matches!(rep, Some(Rep::Double | Rep::Integer | Rep::Logical))
}

/// Whether the declaration is an array sort's without a copy routine.
#[tactic(auto, unfolding(crate::specs::Faults::lacks_copy))]
pub fn lacks_copy(declaration: &Declaration) -> bool
    ensures { result ≡ lacks_copy declaration.now }
{
    match declaration {
        Declaration::Sort { rep, copy, .. } => is_array_rep(*rep) && copy.is_none(),
        Declaration::Subsort { .. } => false,
        _ => false,
    }
}

fn is_array_rep(rep: Option<WrittenRep>) -> bool
    ensures { result ≡ is_array_rep rep }
{
    match rep {
        Some(rep) => is_array(rep),
        None => false,
    }
}
