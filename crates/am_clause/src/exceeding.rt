ghost use Rattle.std.specs.Prelude.{◌≡◌, IfOk};
ghost use Rattle.am_clause.specs.Exceeding.{exceeds};

use crate::building::build;
use crate::counting::count_clauses;
use am_term::{Formula, NoMemory};
use std::alloc::Global;

/// Whether the clause form has more than 64 clauses, or one with more than `most` literals once equal
/// ones are merged. The clauses are counted before any is built, and none gets longer than twice `most`
/// on the way, so this takes memory and time in proportion to the formula, to 64 and to `most`.
#[tactic(auto, using(crate::proofs::Excesses::exceeding))]
pub fn exceeds(alloc: Global, formula: &Formula, most: usize) -> Result<bool, NoMemory>
    ensures { IfOk result (λ over. over ≡ exceeds most formula.now) }
{
    if count_clauses(formula).pos > 64 {
        return Ok(true);
    }
    match build(alloc, formula, true, most)? {
        Some(_) => Ok(false),
        None => Ok(true),
    }
}
