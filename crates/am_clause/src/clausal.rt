ghost use Rattle.std.specs.Prelude.{◌≡◌, ◌<◌, ◌≤◌, length, map, IfOk, IfErr, OnOk};
ghost use Rattle.std.specs.List.{All};
ghost use Rattle.am_clause.specs.Variables.{variables, variables_of};
ghost use Rattle.am_clause.specs.ClauseForm.{cnf};
ghost use Rattle.am_clause.specs.Bounded.{plain};
ghost use Rattle.am_clause.specs.Faults.{IsCause};
ghost use Rattle.am_clause.specs.Renaming.{renumbered};

use crate::building::{build, copy_literals};
use crate::clause::Clause;
use crate::counting::count_clauses;
use crate::fault::ClauseFault;
use crate::numbering::renumber;
use am_term::{Formula, Literal, NoMemory};
use sqlite_items::Items;
use std::alloc::Global;

/// The clause form of a formula: at most 64 clauses, by this project's own table, each with equal
/// literals merged and its variables numbered by first occurrence. `TooManyClauses` with their number,
/// which stands still at the end of 64 bits, where there are more: they are counted before any is built.
#[tactic(auto, using(crate::proofs::Clauses::forming))]
pub fn clauses_of(alloc: Global, formula: &Formula) -> Result<Items<Clause>, ClauseFault>
    requires few { length (variables_of formula.now) < 4000000000 }
    ensures clauses { IfOk result (λ cs. cs ≡ cnf formula.now) }
    ensures within { OnOk result (length (cnf formula.now) ≤ 64) }
    ensures fault { IfErr result (IsCause formula.now) }
{
    let count = count_clauses(formula).pos;
    if count > 64 {
        return Err(ClauseFault::TooManyClauses(count));
    }
    // No list that is in memory is longer than `usize::MAX`.
    let Some(lists) = build(alloc, formula, true, usize::MAX)? else {
        return Err(ClauseFault::NoMemory);
    };
    let clauses = finish_all(alloc, lists.as_slice())?;
    Ok(clauses)
}

#[tactic(auto, using(crate::proofs::Clauses::finishing))]
fn finish_all(alloc: Global, lists: &[Items<Literal>]) -> Result<Items<Clause>, NoMemory>
    requires few { All (λ ls. length (variables (plain ls)) < 4000000000) lists.now }
    ensures { IfOk result (λ cs. cs ≡ map (λ ls. renumbered (plain ls)) lists.now) }
{
    let mut made = Items::new(alloc);
    for literals in lists {
        made.push(finish(alloc, literals.as_slice())?)?;
    }
    Ok(made)
}

#[tactic(auto, using(crate::proofs::Clauses::finishing))]
fn finish(alloc: Global, literals: &[Literal]) -> Result<Clause, NoMemory>
    requires few { length (variables (plain literals.now)) < 4000000000 }
    ensures { IfOk result (λ c. c ≡ renumbered (plain literals.now)) }
{
    let literals = copy_literals(alloc, literals)?;
    let clause = Clause {
        literals,
        answer: None,
    };
    renumber(alloc, &clause)
}
