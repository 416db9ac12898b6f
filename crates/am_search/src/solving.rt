//! The search of a theory and a diagram.
ghost use Rattle.std.specs.Prelude.{IfOk, ◌≡◌, ◌≤◌, MatchOption};
ghost use Rattle.am_clause.specs.Ancestors.{AreAncestors, AreOrdered};
ghost use Rattle.am_diagram.specs.Facts.{WellFormed as WellDrawn};
ghost use Rattle.am_diagram.specs.Listed.{entry_sorts};
ghost use Rattle.am_search.specs.Outcomes.{Outcomes};
ghost use Rattle.am_search.specs.Searched.{IsSearched, HasLast, HasLogFrom, choices_in, end_of, entries_in, rules_for};
ghost use Rattle.am_search.specs.Starting.{starting_rows};
ghost use Rattle.am_theory.specs.Facts.{WellFormed};

use crate::fate::End;
use crate::outcome::{Limits, Outcome};
use crate::searching::{Ended, search_for};
use crate::starting::theory_rows;
use am_agenda::Chooser;
use am_clause::{Log, Row, ancestors};
use am_diagram::{Diagram, givens_of, goal_of};
use am_term::{Ctx, Name, NoMemory, SortId};
use am_theory::Theory;
use sqlite_items::Items;
use std::alloc::Global;

/// Searches for values of the diagram's outputs: rows are inferred from the theory's axioms, the goal and the givens
/// until a last row ends the search, nothing is left to do, or an inference is due beyond the budget. The chooser is
/// asked once for each choice, and dropped.
#[tactic(auto, using(crate::proofs::Reported::reporting))]
pub fn search(
    alloc: Global,
    theory: &Theory,
    diagram: &Diagram,
    limits: Limits,
    chooser: Box<dyn Chooser>,
) -> Result<Outcome, NoMemory>
    requires some_budget { 1 ≤ limits.budget }
    requires budget { limits.budget ≤ 100000 }
    requires some_weight { 10 ≤ limits.weight }
    requires weight { limits.weight ≤ 400 }
    requires theory { WellFormed theory.now }
    requires diagram { WellDrawn theory.now diagram.now }
    ensures { IfOk result (λ o. IsSearched theory.now diagram.now limits (pick_after chooser) o) }
{
    let sorts = input_sorts(alloc, diagram.inputs.as_slice())?;
    let ended = search_with(alloc, theory, diagram, limits, sorts.as_slice(), chooser)?;
    let outcome = report(alloc, ended)?;
    Ok(outcome)
}

// The search from the rows of the theory, the goal and the givens, for inputs of these sorts.
#[tactic(auto, using(crate::proofs::Reported::asking))]
fn search_with(
    alloc: Global,
    theory: &Theory,
    diagram: &Diagram,
    limits: Limits,
    sorts: &[SortId],
    chooser: Box<dyn Chooser>,
) -> Result<Ended, NoMemory>
    requires weight { limits.weight ≤ 400 }
    requires diagram { WellDrawn theory.now diagram.now }
    requires sorts { sorts.now ≡ entry_sorts diagram.now.inputs }
    ensures { IfOk result (λ o. Outcomes (rules_for theory.now diagram.now limits.weight)
        (starting_rows theory.now diagram.now) limits.budget
        (pick_after chooser) o.end o.rows o.entries o.choices o.last) }
{
    let axioms = theory_rows(alloc, theory)?;
    let asked = goal_of(alloc, diagram)?;
    let facts = givens_of(alloc, diagram)?;
    let ctx = Ctx {
        sig: &theory.sig,
        ins: sorts,
    };
    let ended = search_for(
        alloc,
        ctx,
        limits.weight,
        limits.budget,
        axioms,
        asked,
        facts.as_slice(),
        chooser,
    )?;
    Ok(ended)
}

// The outcome, with the log of the last row where there is one.
fn report(alloc: Global, ended: Ended) -> Result<Outcome, NoMemory>
    requires ordered { AreOrdered ended.rows }
    requires last { HasLast ended.rows ended.last ended.end }
    ensures end { IfOk result (λ o. end_of o ≡ ended.end) }
    ensures entries { IfOk result (λ o. entries_in o ≡ ended.entries) }
    ensures choices { IfOk result (λ o. choices_in o ≡ ended.choices) }
    ensures log { IfOk result (λ o. HasLogFrom ended.rows ended.last o) }
{
    let Ended {
        end,
        rows,
        last,
        entries,
        choices,
    } = ended;
    match end {
        End::Found => {
            let log = log_of(alloc, rows, last)?;
            Ok(Outcome::Found {
                log,
                entries,
                choices,
            })
        }
        End::Contradiction => {
            let log = log_of(alloc, rows, last)?;
            Ok(Outcome::Contradiction {
                log,
                entries,
                choices,
            })
        }
        End::Exhausted => Ok(Outcome::Exhausted { entries, choices }),
        End::Spent => Ok(Outcome::Spent { entries, choices }),
    }
}

// The last row and all rows that it rests on.
fn log_of(alloc: Global, rows: Items<Row>, last: u32) -> Result<Log, NoMemory>
    requires ordered { AreOrdered rows }
    requires last { HasLast rows last End.Found }
    ensures { IfOk result (λ log. AreAncestors rows last log.rows) }
{
    let all = Log { rows };
    ancestors(alloc, &all, last)
}

fn input_sorts(alloc: Global, inputs: &[(Name, SortId)]) -> Result<Items<SortId>, NoMemory>
    ensures { IfOk result (λ sorts. sorts ≡ entry_sorts inputs.now) }
{
    let mut sorts = Items::new(alloc);
    let mut rest = inputs;
    while let [input, behind @ ..] = rest {
        sorts.push(input.1)?;
        rest = behind;
    }
    Ok(sorts)
}
