ghost use Rattle.std.specs.Prelude.{◌≡◌, ◌==◌, IfOk, option_copied, option_map};
ghost use Rattle.am_term.specs.Instance.{instance, instance_literal};
ghost use Rattle.am_clause.specs.Bound.{instance_answer};
ghost use Rattle.am_clause.specs.Rules.{have_one_atom, are_one, part_at, go_together};

use crate::binding::{bind, bind_all, bind_atom};
use crate::rules::part_of;
use crate::sizing::{MOST_NODES, Measured, all_nodes, atom_nodes, instance_nodes};
use am_term::{Literal, NoMemory, Term, same, same_atom, same_terms};
use sqlite_items::Items;
use std::alloc::Global;

// Whether two sizes are one. No memory where they are, and more than 16,777,216: nothing so large is made to be
// compared.
#[tactic(auto, using(crate::proofs::PartsBound::comparing))]
fn as_many(size: u32, other: u32) -> Result<bool, NoMemory>
    ensures { IfOk result (λ b. b ≡ (size == other)) }
{
    if size != other {
        return Ok(false);
    }
    if size > MOST_NODES {
        return Err(NoMemory);
    }
    Ok(true)
}

/// Whether both literals are there and their instances have one atom. Where these have as many nodes, and more than
/// 16,777,216, they aren't made, and the answer is no memory; so it is with the other parts.
#[tactic(auto, using(crate::proofs::PartsBound::comparing))]
pub fn atoms_agree<'a>(
    alloc: Global,
    first: Option<&Literal>,
    with: &Measured<'a>,
    second: Option<&Literal>,
    other: &Measured<'a>,
) -> Result<bool, NoMemory>
    ensures { IfOk result (λ b. b ≡ have_one_atom (option_map (instance_literal with.now.terms.now)
        (option_copied first.entry)) (option_map (instance_literal other.now.terms.now) (option_copied second.entry))) }
{
    let Some(first) = first else {
        return Ok(false);
    };
    let Some(second) = second else {
        return Ok(false);
    };
    if !as_many(
        atom_nodes(&first.atom, with),
        atom_nodes(&second.atom, other),
    )? {
        return Ok(false);
    }
    let first = bind_atom(alloc, &first.atom, with.terms)?;
    let second = bind_atom(alloc, &second.atom, other.terms)?;
    Ok(same_atom(&first, &second))
}

/// Whether both terms are there and their instances are one.
#[tactic(auto, using(crate::proofs::PartsBound::comparing))]
pub fn terms_agree<'a>(
    alloc: Global,
    first: Option<&Term>,
    with: &Measured<'a>,
    second: Option<&Term>,
    other: &Measured<'a>,
) -> Result<bool, NoMemory>
    ensures { IfOk result (λ b. b ≡ are_one (option_map (instance with.now.terms.now) (option_copied first.entry))
        (option_map (instance other.now.terms.now) (option_copied second.entry))) }
{
    let Some(first) = first else {
        return Ok(false);
    };
    let Some(second) = second else {
        return Ok(false);
    };
    if !as_many(instance_nodes(first, with), instance_nodes(second, other))? {
        return Ok(false);
    }
    let first = bind(alloc, first, with.terms)?;
    let second = bind(alloc, second, other.terms)?;
    Ok(same(&first, &second))
}

/// Whether the term is there and its instance is the part at the path of the literal's instance. No memory too where
/// the literal itself has no such part.
#[tactic(auto, using(crate::proofs::PartsBound::comparing))]
pub fn part_agrees<'a>(
    alloc: Global,
    term: Option<&Term>,
    with: &Measured<'a>,
    literal: Option<&Literal>,
    path: &[u32],
    other: &Measured<'a>,
) -> Result<bool, NoMemory>
    ensures { IfOk result (λ b. b ≡ are_one (option_map (instance with.now.terms.now) (option_copied term.entry))
        (part_at path.now (option_map (instance_literal other.now.terms.now) (option_copied literal.entry)))) }
{
    let Some(part) = part_of(literal, path) else {
        return Err(NoMemory);
    };
    terms_agree(alloc, term, with, Some(part), other)
}

/// Whether the instances of two answers, where both are there, are one.
#[tactic(auto, using(crate::proofs::PartsBound::comparing))]
pub fn answers_agree<'a>(
    alloc: Global,
    first: &Option<Items<Term>>,
    with: &Measured<'a>,
    second: &Option<Items<Term>>,
    other: &Measured<'a>,
) -> Result<bool, NoMemory>
    ensures { IfOk result (λ b. b ≡ go_together (instance_answer with.now.terms.now first.now)
        (instance_answer other.now.terms.now second.now)) }
{
    let Some(first) = first else {
        return Ok(true);
    };
    let Some(second) = second else {
        return Ok(true);
    };
    let (first, second) = (first.as_slice(), second.as_slice());
    if !as_many(all_nodes(first, with), all_nodes(second, other))? {
        return Ok(false);
    }
    let first = bind_all(alloc, first, with.terms)?;
    let second = bind_all(alloc, second, other.terms)?;
    Ok(same_terms(first.as_slice(), second.as_slice()))
}
