ghost use Rattle.std.specs.Prelude.{◌≡◌};
ghost use Rattle.am_theory.specs.Lookups.{rep_of as rep_at, result_sort as sort_given};
ghost use Rattle.am_plan.specs.Plan.{rep_or_double, rep_of_sort as rep_at_sort, is_array_rep};

use am_exec::is_scalar;
use am_term::{SortId, SymId};
use am_theory::{Rep, Theory, rep_of, result_sort};

/// The representation of a sort; a double precision number's where it has none. Takes no memory, as all in this file.
pub fn rep_of_sort(theory: &Theory, sort: SortId) -> Rep
    ensures { result ≡ rep_or_double (rep_at theory.now sort) }
{
    match rep_of(theory, sort) {
        Some(rep) => rep,
        None => Rep::Double,
    }
}

/// The representation of what a symbol gives; a double precision number's where it gives nothing.
pub fn rep_of_head(theory: &Theory, symbol: SymId) -> Rep
    ensures { result ≡ rep_at_sort theory.now (sort_given theory.now.sig symbol) }
{
    match result_sort(theory, symbol) {
        Some(sort) => rep_of_sort(theory, sort),
        None => Rep::Double,
    }
}

/// Whether a sort is kept in an array.
pub fn is_array(theory: &Theory, sort: SortId) -> bool
    ensures { result ≡ is_array_rep (rep_at theory.now sort) }
{
    match rep_of(theory, sort) {
        Some(rep) => !is_scalar(rep),
        None => false,
    }
}
