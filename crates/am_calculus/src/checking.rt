ghost use Rattle.std.specs.Prelude.{◌≡◌, IfOk, option_copied, option_and_then};
ghost use Rattle.am_calculus.specs.Faults.{fault_of_one, fault_of_two, first_fault};
ghost use Rattle.am_calculus.specs.Named.{alone_of as one_named, paired_of as two_named};
ghost use Rattle.am_calculus.specs.Starts.{sources_in};
ghost use Rattle.am_clause.specs.Steps.{clause_at};
ghost use Rattle.am_term.specs.Place.{member};

use crate::fault::StepFault;
use crate::faulting::{fault_alone, fault_paired, fault_start};
use crate::named::{alone_of, paired_of};
use am_clause::{Clause, Row, Rule};
use am_term::{Ctx, NoMemory};
use sqlite_items::Items;
use std::alloc::Global;

/// What a proof starts from: the clauses of each axiom, the goal, and the givens.
#[derive(Clone, Copy)]
pub struct Starts<'a> {
    pub axioms: &'a [Items<Clause>],
    pub goal: &'a Clause,
    pub givens: &'a [Clause],
}

/// The clause of a row, by its number from 1.
#[tactic(auto, using(crate::proofs::Ruling::stepping))]
pub fn row_clause(rows: &[Row], number: u32) -> Option<&Clause>
    ensures { option_copied result ≡ clause_at rows.now number }
{
    if number == 0 {
        return None;
    }
    match sqlite_items::at(rows, number as usize - 1) {
        Some(row) => Some(&row.clause),
        None => None,
    }
}

// The clause with a number, from 1.
#[tactic(auto, using(crate::proofs::Ruling::stepping))]
fn numbered(clauses: &[Clause], number: u32) -> Option<&Clause>
    ensures { option_copied result ≡ member clauses.now number }
{
    if number == 0 {
        return None;
    }
    sqlite_items::at(clauses, number as usize - 1)
}

#[tactic(auto, using(crate::proofs::Ruling::stepping))]
fn of_axiom<'a>(axioms: &'a [Items<Clause>], at: u32, clause: u32) -> Option<&'a Clause>
    ensures { option_copied result ≡ option_and_then (λ cs. member cs clause) (member axioms.now at) }
{
    if at == 0 {
        return None;
    }
    match sqlite_items::at(axioms, at as usize - 1) {
        Some(clauses) => numbered(clauses.as_slice(), clause),
        None => None,
    }
}

// The first fault of a row by a rule with one parent, the row of that number.
#[tactic(auto, using(crate::proofs::Ruling::stepping))]
fn one_parent(
    alloc: Global,
    ctx: &Ctx,
    rows: &[Row],
    p: u32,
    row: &Row,
) -> Result<Option<StepFault>, NoMemory>
    ensures { IfOk result (λ f. f ≡ fault_of_one ctx.now.sig.now ctx.now.ins.now (one_named row.now.rule)
        (clause_at rows.now p) row.now) }
{
    fault_alone(alloc, ctx, alone_of(&row.rule), row_clause(rows, p), row)
}

// The first fault of a row by a rule with two parents, the rows of these numbers.
#[tactic(auto, using(crate::proofs::Ruling::stepping))]
fn two_parents(
    alloc: Global,
    ctx: &Ctx,
    rows: &[Row],
    p: u32,
    q: u32,
    row: &Row,
) -> Result<Option<StepFault>, NoMemory>
    ensures { IfOk result (λ f. f ≡ fault_of_two ctx.now.sig.now ctx.now.ins.now (two_named row.now.rule)
        (clause_at rows.now p) (clause_at rows.now q) row.now) }
{
    fault_paired(
        alloc,
        ctx,
        paired_of(&row.rule),
        row_clause(rows, p),
        row_clause(rows, q),
        row,
    )
}

/// The first fault of a row as a step after the earlier rows. None exactly where there is none.
#[tactic(auto, using(crate::proofs::Ruling::stepping))]
pub fn step_fault(
    alloc: Global,
    ctx: &Ctx,
    starts: &Starts,
    rows: &[Row],
    row: &Row,
) -> Result<Option<StepFault>, NoMemory>
    ensures { IfOk result (λ f. f ≡ first_fault ctx.now.sig.now ctx.now.ins.now
        (sources_in starts.now.axioms.now starts.now.goal.now starts.now.givens.now) rows.now row.now) }
{
    match &row.rule {
        Rule::Axiom { axiom, clause } => {
            fault_start(alloc, of_axiom(starts.axioms, *axiom, *clause), row)
        }
        Rule::Goal => fault_start(alloc, Some(starts.goal), row),
        Rule::Given { k } => fault_start(alloc, numbered(starts.givens, *k), row),
        Rule::Factor { p, .. } => one_parent(alloc, ctx, rows, *p, row),
        Rule::Reflex { p, .. } => one_parent(alloc, ctx, rows, *p, row),
        Rule::Resolve { p, q, .. } => two_parents(alloc, ctx, rows, *p, *q, row),
        Rule::Para { p, q, .. } => two_parents(alloc, ctx, rows, *p, *q, row),
        Rule::Rewrite { p, q, .. } => two_parents(alloc, ctx, rows, *p, *q, row),
        Rule::Close { p } => one_parent(alloc, ctx, rows, *p, row),
    }
}
