ghost use Rattle.std.specs.Prelude.{◌≡◌};
ghost use Rattle.am_theory.specs.Contents.{contents};
ghost use Rattle.am_theory.specs.Faults.{is_free_name, is_bad_copy_name, has_bad_fortran_name, copy_clashes, clashes};

use crate::declaration::Declaration;
use crate::tables::Tables;
use am_term::{Name, is_fortran_name, is_local_name};

/// Whether a FORTRAN name in the declaration isn't one, or is one of a unit's own locals.
#[tactic(auto, unfolding(crate::specs::Faults::has_bad_fortran_name))]
pub fn has_bad_fortran_name(declaration: &Declaration) -> bool
    ensures { result ≡ has_bad_fortran_name declaration.now }
{
    match declaration {
        Declaration::Sort { copy, .. } => is_bad_copy_name(copy),
        Declaration::Subsort { .. } => false,
        Declaration::Function { .. } => false,
        Declaration::Relation { .. } => false,
        Declaration::Literal { .. } => false,
        Declaration::Routine { name, .. } => !is_free_name(name),
        Declaration::Value { function, .. } => !is_free_name(function),
        Declaration::Axiom { .. } => false,
    }
}

fn is_free_name(name: &Name) -> bool
    ensures { result ≡ is_free_name name.now }
{
    let bytes = name.as_str().as_bytes();
    is_fortran_name(bytes) && !is_local_name(bytes)
}

fn is_bad_copy_name(copy: &Option<Name>) -> bool
    ensures { result ≡ is_bad_copy_name copy.now }
{
    match copy {
        Some(name) => !is_free_name(name),
        None => false,
    }
}

/// Whether a FORTRAN name in the declaration is that of something else.
#[tactic(auto, unfolding(crate::specs::Faults::clashes))]
pub fn clashes(tables: &Tables, declaration: &Declaration) -> bool
    ensures { result ≡ clashes (contents tables.now.theory) declaration.now }
{
    match declaration {
        Declaration::Sort { copy, .. } => copy_clashes(tables, copy),
        Declaration::Subsort { .. } => false,
        Declaration::Function { .. } => false,
        Declaration::Relation { .. } => false,
        Declaration::Literal { .. } => false,
        Declaration::Routine { name, .. } => tables.is_called(name),
        Declaration::Value { function, .. } => tables.is_called(function),
        Declaration::Axiom { .. } => false,
    }
}

fn copy_clashes(tables: &Tables, copy: &Option<Name>) -> bool
    ensures { result ≡ copy_clashes (contents tables.now.theory) copy.now }
{
    match copy {
        Some(name) => tables.is_call(name),
        None => false,
    }
}
