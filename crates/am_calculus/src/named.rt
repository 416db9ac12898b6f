ghost use Rattle.std.specs.Prelude.{◌≡◌, IfOk, option_copied};
ghost use Rattle.am_calculus.specs.Named.{alone, paired, alone_of as one_named, paired_of as two_named};
ghost use Rattle.am_clause.specs.Bound.{without_repeats};
ghost use Rattle.am_clause.specs.Rules.{with_other, shared, para};
ghost use Rattle.am_term.specs.Place.{member};

use crate::replacing::put_in;
use crate::rules::{
    answers_go, equal_sides, equation_of, literal_at, one_atom, one_sign, one_term, opposite,
    part_of, places, side_in, turn, without,
};
use am_clause::{Clause, Rule, Side, merge};
use am_term::{Literal, NoMemory, Term};
use sqlite_items::Items;
use std::alloc::Global;

/// A rule with one parent.
#[derive(Clone, Copy)]
pub enum Alone {
    Factor { i: u32, j: u32 },
    Reflex { i: u32 },
    Close,
}

/// A rule with two parents.
#[derive(Clone, Copy)]
pub enum Paired<'a> {
    Resolve {
        i: u32,
        j: u32,
    },
    Para {
        j: u32,
        side: Side,
        i: u32,
        path: &'a [u32],
    },
    Rewrite {
        j: u32,
        side: Side,
        i: u32,
        path: &'a [u32],
    },
}

/// The rule with one parent that a row names. Of other rows one that suits no parent.
#[tactic(auto, using(crate::proofs::Ruling::ruling))]
pub fn alone_of(rule: &Rule) -> Alone
    ensures { alone result ≡ one_named rule.now }
{
    match rule {
        Rule::Factor { i, j, .. } => Alone::Factor { i: *i, j: *j },
        Rule::Reflex { i, .. } => Alone::Reflex { i: *i },
        Rule::Close { .. } => Alone::Close,
        _ => Alone::Reflex { i: 0 },
    }
}

/// The rule with two parents that a row names. Of other rows one that suits no parents.
#[tactic(auto, using(crate::proofs::Ruling::ruling))]
pub fn paired_of(rule: &Rule) -> Paired
    ensures { paired result ≡ two_named rule.now }
{
    match rule {
        Rule::Resolve { i, j, .. } => Paired::Resolve { i: *i, j: *j },
        Rule::Para {
            j,
            side,
            i,
            path,
            ..
        } => Paired::Para {
            j: *j,
            side: *side,
            i: *i,
            path: path.as_slice(),
        },
        Rule::Rewrite {
            j,
            side,
            i,
            path,
            ..
        } => Paired::Rewrite {
            j: *j,
            side: *side,
            i: *i,
            path: path.as_slice(),
        },
        _ => Paired::Resolve { i: 0, j: 0 },
    }
}

/// Whether the parent has what the rule names, and of the right kind.
#[tactic(auto, using(crate::proofs::Ruling::ruling))]
pub fn suits_alone(rule: Alone, p: &Clause) -> bool
    ensures { result ≡ (alone rule).suits p.now }
{
    match rule {
        Alone::Factor { i, j } => one_sign(
            literal_at(p.literals.as_slice(), i),
            literal_at(p.literals.as_slice(), j),
        ),
        Alone::Reflex { i } => equation_of(false, literal_at(p.literals.as_slice(), i)),
        Alone::Close => p.literals.len() == 0 && p.answer.is_some(),
    }
}

/// Whether what the rule names is equal in the parent's instance.
#[tactic(auto, using(crate::proofs::Ruling::ruling))]
pub fn equal_alone(rule: Alone, c: &Clause) -> bool
    ensures { result ≡ (alone rule).equal c.now }
{
    match rule {
        Alone::Factor { i, j } => one_atom(
            literal_at(c.literals.as_slice(), i),
            literal_at(c.literals.as_slice(), j),
        ),
        Alone::Reflex { i } => equal_sides(literal_at(c.literals.as_slice(), i)),
        Alone::Close => true,
    }
}

/// The conclusion from the parent's instance, nothing merged.
#[tactic(auto, using(crate::proofs::Ruling::ruling))]
pub fn made_alone(rule: Alone, c: Clause) -> Clause
    ensures { result ≡ (alone rule).made c }
{
    match rule {
        Alone::Factor { .. } => c,
        Alone::Reflex { i } => Clause {
            literals: without(c.literals, i),
            answer: c.answer,
        },
        Alone::Close => c,
    }
}

/// Whether the parents have what the rule names, and of the right kind.
#[tactic(auto, using(crate::proofs::Ruling::ruling))]
pub fn suits_paired(rule: Paired, p: &Clause, q: &Clause) -> bool
    ensures { result ≡ (paired rule.entry).suits p.now q.now }
{
    match rule {
        Paired::Resolve { i, j } => opposite(
            literal_at(p.literals.as_slice(), i),
            literal_at(q.literals.as_slice(), j),
        ),
        Paired::Para { j, i, path, .. } => {
            equation_of(true, literal_at(p.literals.as_slice(), j))
                && places(literal_at(q.literals.as_slice(), i), path)
        }
        Paired::Rewrite { j, i, path, .. } => {
            p.literals.len() == 1
                && (p.answer.is_none()
                    && (equation_of(true, literal_at(p.literals.as_slice(), j))
                        && places(literal_at(q.literals.as_slice(), i), path)))
        }
    }
}

/// Whether what the rule names is equal in the parents' instances.
#[tactic(auto, using(crate::proofs::Ruling::ruling))]
pub fn equal_paired(rule: Paired, c: &Clause, d: &Clause) -> bool
    ensures { result ≡ (paired rule.entry).equal c.now d.now }
{
    match rule {
        Paired::Resolve { i, j } => one_atom(
            literal_at(c.literals.as_slice(), i),
            literal_at(d.literals.as_slice(), j),
        ),
        Paired::Para { j, side, i, path } => one_term(
            side_in(side, literal_at(c.literals.as_slice(), j)),
            part_of(literal_at(d.literals.as_slice(), i), path),
        ),
        Paired::Rewrite { j, side, i, path } => one_term(
            side_in(side, literal_at(c.literals.as_slice(), j)),
            part_of(literal_at(d.literals.as_slice(), i), path),
        ),
    }
}

// The literals with that term at the path of one of them.
#[tactic(auto, using(crate::proofs::Ruling::concluding))]
fn with_term(
    alloc: Global,
    other: Option<&Term>,
    path: &[u32],
    literals: Items<Literal>,
    i: u32,
) -> Result<Items<Literal>, NoMemory>
    ensures { IfOk result (λ ls. ls ≡ with_other (option_copied other.entry) path.now (member literals i) literals i) }
{
    let Some(other) = other else {
        return Ok(literals);
    };
    let Some(literal) = literal_at(literals.as_slice(), i) else {
        return Ok(literals);
    };
    let new = put_in(alloc, literal, path, other)?;
    let mut made = literals;
    if i != 0 && i as usize <= made.len() {
        made.set(i as usize - 1, new);
    }
    Ok(made)
}

// The answer of one of them, if one has any.
#[tactic(auto)]
fn either(first: Option<Items<Term>>, second: Option<Items<Term>>) -> Option<Items<Term>>
    ensures { result ≡ shared first second }
{
    match first {
        Some(terms) => Some(terms),
        None => second,
    }
}

// The conclusion of a paramodulation.
#[tactic(auto, using(crate::proofs::Ruling::concluding))]
fn made_para(
    alloc: Global,
    j: u32,
    side: Side,
    i: u32,
    path: &[u32],
    c: Clause,
    d: Clause,
) -> Result<Clause, NoMemory>
    ensures { IfOk result (λ e. e ≡ (para j side i path.now).made c d) }
{
    let other = side_in(turn(side), literal_at(c.literals.as_slice(), j));
    let mut literals = with_term(alloc, other, path, d.literals, i)?;
    literals.append(without(c.literals, j))?;
    Ok(Clause {
        literals,
        answer: either(c.answer, d.answer),
    })
}

/// The conclusion from the parents' instances, nothing merged.
#[tactic(auto, using(crate::proofs::Ruling::concluding))]
pub fn made_paired(alloc: Global, rule: Paired, c: Clause, d: Clause) -> Result<Clause, NoMemory>
    ensures { IfOk result (λ e. e ≡ (paired rule.entry).made c d) }
{
    match rule {
        Paired::Resolve { i, j } => {
            let mut literals = without(c.literals, i);
            literals.append(without(d.literals, j))?;
            Ok(Clause {
                literals,
                answer: either(c.answer, d.answer),
            })
        }
        Paired::Para { j, side, i, path } => made_para(alloc, j, side, i, path, c, d),
        Paired::Rewrite { j, side, i, path } => made_para(alloc, j, side, i, path, c, d),
    }
}

/// The clause with equal literals merged.
pub fn merge_clause(alloc: Global, c: Clause) -> Result<Clause, NoMemory>
    ensures { IfOk result (λ d. d ≡ without_repeats c) }
{
    let literals = merge(alloc, c.literals.as_slice())?;
    Ok(Clause {
        literals,
        answer: c.answer,
    })
}

/// Whether the answers of the parents' instances go together.
#[tactic(auto, using(crate::proofs::Ruling::ruling))]
pub fn answers_paired(rule: Paired, c: &Clause, d: &Clause) -> bool
    ensures { result ≡ (paired rule.entry).answers c.now d.now }
{
    match rule {
        Paired::Resolve { .. } => answers_go(&c.answer, &d.answer),
        Paired::Para { .. } => answers_go(&c.answer, &d.answer),
        Paired::Rewrite { .. } => answers_go(&c.answer, &d.answer),
    }
}
