ghost use Rattle.std.specs.Prelude.{◌≡◌, IfOk, min, option_copied, option_map};
ghost use Rattle.am_term.specs.Instance.{instance, instance_literal};
ghost use Rattle.am_clause.specs.Bound.{bound};
ghost use Rattle.am_calculus.specs.Named.{alone, paired};
ghost use Rattle.am_calculus.specs.Unmade.{instance_fault, instances_fault, literal_nodes, term_nodes, taken_alone as taken_by_one, taken_paired as taken_by_two};

use crate::comparing::{answers_agree, atoms_agree, part_agrees, terms_agree};
use crate::fault::StepFault;
use crate::named::{Alone, Paired};
use crate::rules::{literal_at, side_in};
use crate::sizing::{
    MOST_NODES, Measured, atom_nodes, clause_size, counted, has_larger, instance_nodes,
};
use am_clause::{Clause, Row, Side};
use am_term::{Literal, NoMemory, Term};
use std::alloc::Global;

// Whether what the rule names is equal in the parent's instance.
#[tactic(auto, using(crate::proofs::Judging::judging))]
fn agree_alone(alloc: Global, rule: Alone, p: &Clause, with: &Measured) -> Result<bool, NoMemory>
    ensures { IfOk result (λ b. b ≡ (alone rule).equal (bound with.now.terms.now p.now)) }
{
    let literals = p.literals.as_slice();
    match rule {
        Alone::Factor { i, j } => atoms_agree(
            alloc,
            literal_at(literals, i),
            with,
            literal_at(literals, j),
            with,
        ),
        Alone::Reflex { i } => {
            let literal = literal_at(literals, i);
            let (left, right) = (side_in(Side::Left, literal), side_in(Side::Right, literal));
            terms_agree(alloc, left, with, right, with)
        }
        Alone::Close => Ok(true),
    }
}

// Whether what the rule names is equal in the parents' instances.
#[tactic(auto, using(crate::proofs::Judging::judging))]
fn agree_paired(
    alloc: Global,
    rule: Paired,
    p: &Clause,
    with: &Measured,
    q: &Clause,
    other: &Measured,
) -> Result<bool, NoMemory>
    ensures { IfOk result (λ b. b ≡ (paired rule.entry).equal (bound with.now.terms.now p.now)
        (bound other.now.terms.now q.now)) }
{
    let (first, second) = (p.literals.as_slice(), q.literals.as_slice());
    match rule {
        Paired::Resolve { i, j } => atoms_agree(
            alloc,
            literal_at(first, i),
            with,
            literal_at(second, j),
            other,
        ),
        Paired::Para { j, side, i, path } => {
            let term = side_in(side, literal_at(first, j));
            part_agrees(alloc, term, with, literal_at(second, i), path, other)
        }
        Paired::Rewrite { j, side, i, path } => {
            let term = side_in(side, literal_at(first, j));
            part_agrees(alloc, term, with, literal_at(second, i), path, other)
        }
    }
}

// The nodes of the literal's instance, 0 where there is none.
#[tactic(auto, using(crate::proofs::Judging::judging))]
fn literal_size(literal: Option<&Literal>, with: &Measured) -> u32
    ensures { result ≡ min (literal_nodes (option_map (instance_literal with.now.terms.now)
        (option_copied literal.entry))) 16777217 }
{
    match literal {
        Some(literal) => atom_nodes(&literal.atom, with),
        None => 0,
    }
}

// The nodes of the term's instance, 0 where there is none.
#[tactic(auto, using(crate::proofs::Judging::judging))]
fn term_size(term: Option<&Term>, with: &Measured) -> u32
    ensures { result ≡ min (term_nodes (option_map (instance with.now.terms.now) (option_copied term.entry))) 16777217 }
{
    match term {
        Some(term) => instance_nodes(term, with),
        None => 0,
    }
}

// How many nodes the rule takes away: a literal of the instance that is larger than the row's clause by more than these
// leaves one in the conclusion that is larger than the row's clause.
#[tactic(auto, using(crate::proofs::Judging::judging))]
fn taken_alone(rule: Alone, p: &Clause, with: &Measured) -> u32
    ensures { result ≡ min (taken_by_one rule (bound with.now.terms.now p.now)) 16777217 }
{
    match rule {
        Alone::Factor { .. } => 0,
        Alone::Reflex { i } => literal_size(literal_at(p.literals.as_slice(), i), with),
        Alone::Close => 0,
    }
}

// The same of both parents' instances, by that of the first.
#[tactic(auto, using(crate::proofs::Judging::judging))]
fn taken_paired(rule: Paired, p: &Clause, with: &Measured) -> u32
    ensures { result ≡ min (taken_by_two rule.entry (bound with.now.terms.now p.now)) 16777217 }
{
    let literals = p.literals.as_slice();
    match rule {
        Paired::Resolve { i, .. } => literal_size(literal_at(literals, i), with),
        Paired::Para { j, side, .. } => term_size(side_in(side, literal_at(literals, j)), with),
        Paired::Rewrite { j, side, .. } => term_size(side_in(side, literal_at(literals, j)), with),
    }
}

/// The first fault of a row whose list binds the parent, without the parent's instance, which may be too large to be
/// made. No memory where neither the parts that the rule names nor sizes tell one.
#[tactic(auto, using(crate::proofs::Judging::judging))]
pub fn unmade_alone(
    alloc: Global,
    rule: Alone,
    p: &Clause,
    first: &[Term],
    row: &Row,
) -> Result<Option<StepFault>, NoMemory>
    ensures { IfOk result (λ f. f ≡ instance_fault (alone rule) (bound first.now p.now) row.now) }
{
    let sizes = counted(alloc, first)?;
    let with = Measured {
        terms: first,
        sizes: sizes.as_slice(),
    };
    if !agree_alone(alloc, rule, p, &with)? {
        return Ok(Some(StepFault::NotEqual));
    }
    let most = clause_size(&row.clause) + taken_alone(rule, p, &with);
    if most <= MOST_NODES && has_larger(p, &with, most) {
        return Ok(Some(StepFault::WrongConclusion));
    }
    Err(NoMemory)
}

/// The first fault of a row whose lists bind the parents, without the parents' instances, which may be too large to
/// be made. No memory where neither the parts that the rule names, nor the answers, nor sizes tell one.
#[tactic(auto, using(crate::proofs::Judging::judging))]
pub fn unmade_paired(
    alloc: Global,
    rule: Paired,
    p: &Clause,
    q: &Clause,
    first: &[Term],
    second: &[Term],
    row: &Row,
) -> Result<Option<StepFault>, NoMemory>
    ensures { IfOk result (λ f. f ≡ instances_fault (paired rule.entry) (bound first.now p.now)
        (bound second.now q.now) row.now) }
{
    let sizes = counted(alloc, first)?;
    let with = Measured {
        terms: first,
        sizes: sizes.as_slice(),
    };
    let other_sizes = counted(alloc, second)?;
    let other = Measured {
        terms: second,
        sizes: other_sizes.as_slice(),
    };
    if !agree_paired(alloc, rule, p, &with, q, &other)? {
        return Ok(Some(StepFault::NotEqual));
    }
    if !answers_agree(alloc, &p.answer, &with, &q.answer, &other)? {
        return Ok(Some(StepFault::AnswersDiffer));
    }
    let most = clause_size(&row.clause) + taken_paired(rule, p, &with);
    if most <= MOST_NODES && (has_larger(p, &with, most) || has_larger(q, &other, most)) {
        return Ok(Some(StepFault::WrongConclusion));
    }
    Err(NoMemory)
}
