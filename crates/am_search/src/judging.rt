ghost use Rattle.std.specs.Prelude.{IfOk, ◌≡◌};
ghost use Rattle.am_search.specs.Members.{processed, kept_rows};
ghost use Rattle.am_search.specs.Plain.{fate_of};
ghost use Rattle.am_search.specs.Rules.{rules_in, step_row};
ghost use Rattle.am_search.specs.Stating.{Tied};

use crate::fate::{Fate, Stage};
use crate::lookups::first_subsumer;
use crate::setting::Setting;
use crate::state::State;
use crate::turn::row;
use am_clause::{Made, Row, Rule, clause_variables};
use am_rules::close;
use am_simplify::{Reason, RewriteMade, StepRule, own_reason, too_big};
use am_term::NoMemory;
use std::alloc::Global;

/// The fate of the row of a number, and what it asks for.
pub fn judge(
    alloc: Global,
    setting: &Setting,
    state: &State,
    number: u32,
    row: &Row,
) -> Result<(Fate, Stage), NoMemory>
    requires tied { Tied setting.now state.now }
    ensures { IfOk result (λ f. f ≡ fate_of
        (rules_in setting.now) state.now.rows state.now.choices state.now.fates number row.now) }
{
    if let Some(reason) = size_reason(setting, row) {
        return Ok((Fate::Dropped(reason), Stage::Quiet));
    }
    if let Some(made) = step_of(alloc, setting, state, number, row)? {
        return Ok((Fate::Rewritten, Stage::Makes(made)));
    }
    if let Some(reason) = reason_of(alloc, setting, state, row)? {
        return Ok((Fate::Dropped(reason), Stage::Quiet));
    }
    if is_last(alloc, setting, row)? {
        return Ok((Fate::Last, Stage::Ended(has_answer(setting, row))));
    }
    if let Some(closed) = close_of(alloc, setting, number, row)? {
        return Ok((Fate::Closed, Stage::Closes(closed)));
    }
    Ok((Fate::Kept(number), Stage::Quiet))
}

#[tactic(auto, using(crate::specs::Rules::rules_laws))]
fn size_reason(setting: &Setting, row: &Row) -> Option<Reason>
    ensures { result ≡ (rules_in setting.now).too_big row.now }
{
    too_big(setting.weight, &row.clause, row.with.as_slice())
}

#[tactic(auto, using(crate::specs::Rules::rules_laws))]
fn step_of(
    alloc: Global,
    setting: &Setting,
    state: &State,
    number: u32,
    row: &Row,
) -> Result<Option<Row>, NoMemory>
    requires tied { Tied setting.now state.now }
    ensures { IfOk result (λ o. o ≡ (rules_in setting.now).step_of
        (processed (rules_in setting.now).axioms state.now.rows state.now.choices) number row.now) }
{
    match state.rewriter.step(alloc, &setting.ctx, &row.clause)? {
        Some(step) => Ok(Some(row_of_step(number, step))),
        None => Ok(None),
    }
}

// The row that a normal step of the row of a number makes.
fn row_of_step(number: u32, step: RewriteMade) -> Row
    ensures { result ≡ step_row number step }
{
    let RewriteMade { rule, made } = step;
    let Made { clause, with } = made;
    let rule = match rule {
        StepRule::Reflex { i } => Rule::Reflex { p: number, i },
        StepRule::Rewrite { row, side, i, path } => Rule::Rewrite {
            p: row,
            j: 1,
            side,
            q: number,
            i,
            path,
        },
    };
    Row { rule, with, clause }
}

#[tactic(auto, using(crate::specs::Rules::rules_laws))]
fn reason_of(
    alloc: Global,
    setting: &Setting,
    state: &State,
    row: &Row,
) -> Result<Option<Reason>, NoMemory>
    ensures { IfOk result (λ r. r ≡ (rules_in setting.now).reason
        (kept_rows (rules_in setting.now).axioms state.now.rows state.now.fates) row.now) }
{
    let own = own_reason(
        alloc,
        &setting.ctx,
        setting.weight,
        &row.clause,
        row.with.as_slice(),
    )?;
    if let Some(reason) = own {
        return Ok(Some(reason));
    }
    match first_subsumer(setting, &state.rows, &state.fates, &row.clause)? {
        Some(number) => Ok(Some(Reason::Subsumed(number))),
        None => Ok(None),
    }
}

#[tactic(auto, using(crate::specs::Rules::rules_laws))]
fn is_last(alloc: Global, setting: &Setting, row: &Row) -> Result<bool, NoMemory>
    ensures { IfOk result (λ b. b ≡ (rules_in setting.now).is_last row.now) }
{
    let _weight = setting.weight;
    if !row.clause.literals.is_empty() {
        return Ok(false);
    }
    let variables = clause_variables(alloc, &row.clause)?;
    Ok(variables.is_empty())
}

#[tactic(auto, using(crate::specs::Rules::rules_laws))]
fn has_answer(setting: &Setting, row: &Row) -> bool
    ensures { result ≡ (rules_in setting.now).has_answer row.now }
{
    let _weight = setting.weight;
    row.clause.answer.is_some()
}

#[tactic(auto, using(crate::specs::Rules::rules_laws))]
fn close_of(
    alloc: Global,
    setting: &Setting,
    number: u32,
    from: &Row,
) -> Result<Option<Row>, NoMemory>
    ensures { IfOk result (λ o. o ≡ (rules_in setting.now).close_of number from.now) }
{
    if from.clause.literals.is_empty() && from.clause.answer.is_some() {
        let made = close(alloc, &setting.ctx, &from.clause)?;
        return Ok(row(Rule::Close { p: number }, made));
    }
    Ok(None)
}
