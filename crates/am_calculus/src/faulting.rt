ghost use Rattle.std.specs.Prelude.{◌≡◌, IfOk, Some, map, option_copied};
ghost use Rattle.am_term.specs.Sorting.{fit_places, sorts_of};
ghost use Rattle.am_clause.specs.Variables.{Variable};
ghost use Rattle.am_clause.specs.SameClause.{same_literals, same_answer, same_clause as is_same_clause};
ghost use Rattle.am_calculus.specs.Faults.{conclusion_fault, fault_of_one, fault_of_two, fault_of_start, bound_fault, bound_fault_of_two};
ghost use Rattle.am_calculus.specs.Named.{alone, paired};
ghost use Rattle.am_clause.specs.SortedClause.{are_bindings};

use crate::binding::bind_clause;
use crate::fault::StepFault;
use crate::named::{
    Alone, Paired, answers_paired, equal_alone, equal_paired, made_alone, made_paired,
    merge_clause, suits_alone, suits_paired,
};
use crate::sizing::is_huge;
use crate::unmade::{unmade_alone, unmade_paired};
use crate::walking::numbered_row;
use am_clause::{Clause, Row, clause_variables};
use am_term::{Ctx, Literal, NoMemory, SortId, Term, fits, same_literal, same_terms, well_sorted};
use sqlite_items::Items;
use std::alloc::Global;

/// Whether there is one term for each variable, in order, of a sort that fits the variable's.
#[tactic(auto, using(crate::proofs::Ruling::faulting))]
fn binds(ctx: &Ctx, terms: &[Term], variables: &[(u32, SortId)]) -> bool
    ensures { result ≡ fit_places ctx.now.sig.now (sorts_of ctx.now.sig.now ctx.now.ins.now terms.now)
        (map (λ (v : Variable). v.1) variables.now) }
{
    match terms {
        [] => match variables {
            [] => true,
            [_, ..] => false,
        },
        [term, more @ ..] => match variables {
            [] => false,
            [variable, behind @ ..] => match well_sorted(ctx, term) {
                Some(sort) => fits(ctx.sig, sort, variable.1) && binds(ctx, more, behind),
                None => false,
            },
        },
    }
}

/// Whether the terms bind the variables of the clause.
#[tactic(auto, using(crate::proofs::Ruling::faulting))]
pub fn binds_clause(
    alloc: Global,
    ctx: &Ctx,
    terms: &[Term],
    clause: &Clause,
) -> Result<bool, NoMemory>
    ensures { IfOk result (λ b. b ≡ are_bindings ctx.now.sig.now ctx.now.ins.now terms.now clause.now) }
{
    let variables = clause_variables(alloc, clause)?;
    Ok(binds(ctx, terms, variables.as_slice()))
}

#[tactic(auto, using(crate::proofs::Ruling::faulting))]
fn one_list(first: &[Literal], second: &[Literal]) -> bool
    ensures { result ≡ same_literals first.now second.now }
{
    match first {
        [] => match second {
            [] => true,
            [_, ..] => false,
        },
        [literal, more @ ..] => match second {
            [] => false,
            [other, behind @ ..] => same_literal(literal, other) && one_list(more, behind),
        },
    }
}

#[tactic(auto, using(crate::proofs::Ruling::faulting))]
fn one_answer(first: &Option<Items<Term>>, second: &Option<Items<Term>>) -> bool
    ensures { result ≡ same_answer first.now second.now }
{
    match first {
        None => second.is_none(),
        Some(terms) => match second {
            None => false,
            Some(others) => same_terms(terms.as_slice(), others.as_slice()),
        },
    }
}

/// Whether two clauses are one.
#[tactic(auto, using(crate::proofs::Ruling::faulting))]
pub fn same_clause(first: &Clause, second: &Clause) -> bool
    ensures { result ≡ is_same_clause first.now second.now }
{
    one_list(first.literals.as_slice(), second.literals.as_slice())
        && one_answer(&first.answer, &second.answer)
}

#[tactic(auto, using(crate::proofs::Ruling::faulting))]
fn concluding(alloc: Global, clause: &Clause, row: &Row) -> Result<Option<StepFault>, NoMemory>
    ensures { IfOk result (λ f. f ≡ conclusion_fault clause.now row.now) }
{
    if same_clause(clause, &row.clause) && numbered_row(alloc, row)? {
        Ok(None)
    } else {
        Ok(Some(StepFault::WrongConclusion))
    }
}

#[tactic(auto, using(crate::proofs::Ruling::faulting))]
fn bound_alone(
    alloc: Global,
    ctx: &Ctx,
    rule: Alone,
    p: &Clause,
    first: &[Term],
    row: &Row,
) -> Result<Option<StepFault>, NoMemory>
    ensures { IfOk result (λ f. f ≡ bound_fault ctx.now.sig.now ctx.now.ins.now (alone rule) p.now
        (Some first.now) row.now) }
{
    if !binds_clause(alloc, ctx, first, p)? {
        return Ok(Some(StepFault::BadBindings));
    }
    if is_huge(alloc, p, first)? {
        return unmade_alone(alloc, rule, p, first, row);
    }
    let c = bind_clause(alloc, p, first)?;
    if !equal_alone(rule, &c) {
        return Ok(Some(StepFault::NotEqual));
    }
    let made = merge_clause(alloc, made_alone(rule, c))?;
    concluding(alloc, &made, row)
}

#[tactic(auto, using(crate::proofs::Ruling::faulting))]
fn bound_paired(
    alloc: Global,
    ctx: &Ctx,
    rule: Paired,
    p: &Clause,
    q: &Clause,
    first: &[Term],
    second: &[Term],
    row: &Row,
) -> Result<Option<StepFault>, NoMemory>
    ensures { IfOk result (λ f. f ≡ bound_fault_of_two ctx.now.sig.now ctx.now.ins.now (paired rule.entry) p.now q.now
        (Some (first.now, second.now)) row.now) }
{
    if !(binds_clause(alloc, ctx, first, p)? && binds_clause(alloc, ctx, second, q)?) {
        return Ok(Some(StepFault::BadBindings));
    }
    if is_huge(alloc, p, first)? || is_huge(alloc, q, second)? {
        return unmade_paired(alloc, rule, p, q, first, second, row);
    }
    let c = bind_clause(alloc, p, first)?;
    let d = bind_clause(alloc, q, second)?;
    if !equal_paired(rule, &c, &d) {
        return Ok(Some(StepFault::NotEqual));
    }
    if !answers_paired(rule, &c, &d) {
        return Ok(Some(StepFault::AnswersDiffer));
    }
    let made = merge_clause(alloc, made_paired(alloc, rule, c, d)?)?;
    concluding(alloc, &made, row)
}

/// The first fault of a row by a rule with one parent.
#[tactic(auto, using(crate::proofs::Ruling::faulting))]
pub fn fault_alone(
    alloc: Global,
    ctx: &Ctx,
    rule: Alone,
    p: Option<&Clause>,
    row: &Row,
) -> Result<Option<StepFault>, NoMemory>
    ensures { IfOk result (λ f. f ≡ fault_of_one ctx.now.sig.now ctx.now.ins.now (alone rule)
        (option_copied p.entry) row.now) }
{
    let Some(p) = p else {
        return Ok(Some(StepFault::NoSuchParent));
    };
    if !suits_alone(rule, p) {
        return Ok(Some(StepFault::BadPlace));
    }
    match row.with.as_slice() {
        [first] => bound_alone(alloc, ctx, rule, p, first.as_slice(), row),
        _ => Ok(Some(StepFault::BadBindings)),
    }
}

/// The first fault of a row by a rule with two parents.
#[tactic(auto, using(crate::proofs::Ruling::faulting))]
pub fn fault_paired(
    alloc: Global,
    ctx: &Ctx,
    rule: Paired,
    p: Option<&Clause>,
    q: Option<&Clause>,
    row: &Row,
) -> Result<Option<StepFault>, NoMemory>
    ensures { IfOk result (λ f. f ≡ fault_of_two ctx.now.sig.now ctx.now.ins.now (paired rule.entry)
        (option_copied p.entry) (option_copied q.entry) row.now) }
{
    let Some(p) = p else {
        return Ok(Some(StepFault::NoSuchParent));
    };
    let Some(q) = q else {
        return Ok(Some(StepFault::NoSuchParent));
    };
    if !suits_paired(rule, p, q) {
        return Ok(Some(StepFault::BadPlace));
    }
    match row.with.as_slice() {
        [first, second] => {
            bound_paired(
                alloc,
                ctx,
                rule,
                p,
                q,
                first.as_slice(),
                second.as_slice(),
                row,
            )
        }
        _ => Ok(Some(StepFault::BadBindings)),
    }
}

/// The first fault of a row that a proof starts from.
#[tactic(auto, using(crate::proofs::Ruling::faulting))]
pub fn fault_start(
    alloc: Global,
    from: Option<&Clause>,
    row: &Row,
) -> Result<Option<StepFault>, NoMemory>
    ensures { IfOk result (λ f. f ≡ fault_of_start (option_copied from.entry) row.now) }
{
    let Some(from) = from else {
        return Ok(Some(StepFault::BadPlace));
    };
    match row.with.as_slice() {
        [] => concluding(alloc, from, row),
        [_, ..] => Ok(Some(StepFault::BadBindings)),
    }
}
