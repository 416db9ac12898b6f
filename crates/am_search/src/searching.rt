ghost use Rattle.std.specs.Prelude.{IfOk, ◌≡◌, ◌≤◌, length};
ghost use Rattle.am_search.specs.Outcomes.{Outcomes, last_number as last_of};
ghost use Rattle.am_search.specs.Plain.{entries_of};
ghost use Rattle.am_search.specs.Rules.{rules_in, rules_of};
ghost use Rattle.am_search.specs.Starting.{rows_at_first};

use crate::asking::ask;
use crate::entries::{last_number, list_entries};
use crate::fate::{End, Entry};
use crate::searcher::{Searcher, Turned};
use crate::setting::Setting;
use crate::starting::{count, first_rows};
use crate::state::State;
use am_agenda::Chooser;
use am_clause::{Clause, Row};
use am_term::{Ctx, NoMemory};
use sqlite_items::Items;
use std::alloc::Global;

/// How a search ended, with all of its rows, the number of the one that got its fate last, an entry for each
/// inference, and the rows that were chosen.
#[derive(Drop)]
pub struct Ended {
    pub end: End,
    pub rows: Items<Row>,
    pub last: u32,
    pub entries: Items<Entry>,
    pub choices: Items<u32>,
}

// What a search answers in a state.
fn end_with(alloc: Global, setting: &Setting, state: State, end: End) -> Result<Ended, NoMemory>
    ensures end { IfOk result (λ o. o.end ≡ end) }
    ensures rows { IfOk result (λ o. o.rows ≡ state.rows) }
    ensures entries { IfOk result (λ o. o.entries ≡ entries_of (rules_in setting.now) state.rows state.fates) }
    ensures choices { IfOk result (λ o. o.choices ≡ state.choices) }
    ensures last { IfOk result (λ o. o.last ≡ last_of state.fates) }
{
    let entries = list_entries(
        alloc,
        setting,
        state.rows.as_slice(),
        state.fates.as_slice(),
    )?;
    let last = last_number(state.fates.as_slice());
    let State { rows, choices, .. } = state;
    Ok(Ended {
        end,
        rows: Items::from_vec(rows.into_rows()),
        last,
        entries: Items::from_vec(entries),
        choices: Items::from_vec(choices.into_numbers()),
    })
}

/// Searches for the goal with the axioms' rows and the givens.
#[tactic(auto, using(crate::proofs::Beginnings::beginnings))]
pub fn search_for(
    alloc: Global,
    ctx: Ctx,
    weight: u32,
    budget: u32,
    axioms: Vec<Row>,
    goal: Clause,
    givens: &[Clause],
    chooser: Box<dyn Chooser>,
) -> Result<Ended, NoMemory>
    requires { weight ≤ 1000000 }
    ensures { IfOk result (λ o. let start = rows_at_first axioms.items goal givens.now in Outcomes
        (rules_of ctx.entry.sig.now ctx.entry.ins.now weight (length axioms.items) (length start)) start budget
        (pick_after chooser) o.end o.rows o.entries o.choices o.last) }
{
    let axiom_rows = count(axioms.len())?;
    let rows = first_rows(alloc, axioms, goal, givens)?;
    let starting = count(rows.len())?;
    let setting = Setting {
        ctx,
        weight,
        axioms: axiom_rows,
        starting,
    };
    search_rows(alloc, &setting, rows, budget, chooser)
}

/// Searches from these starting rows, with at most so many inferences.
pub fn search_rows(
    alloc: Global,
    setting: &Setting,
    rows: Vec<Row>,
    budget: u32,
    mut chooser: Box<dyn Chooser>,
) -> Result<Ended, NoMemory>
    requires axioms { setting.now.axioms ≤ length rows.items }
    ensures { IfOk result (λ o. Outcomes (rules_in setting.now) rows.items budget
        (pick_after chooser) o.end o.rows o.entries o.choices o.last) }
{
    let mut searcher = Searcher::new(alloc, setting, rows)?;
    let mut turned = searcher.run_on(alloc, setting, budget)?;
    'turns: loop {
        match turned {
            Turned::Over(end) => {
                let Searcher { state, made: _ } = searcher;
                let outcome = end_with(alloc, setting, state, end)?;
                return Ok(outcome);
            }
            Turned::Goes => {
                turned = searcher.turn(alloc, setting, budget, &mut chooser)?;
            }
        }
    }
}
