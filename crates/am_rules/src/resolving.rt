ghost use Rattle.std.specs.Prelude.{◌≡◌, ◌∷◌, [], Some, IfOk, IsTrue};
ghost use Rattle.am_clause.specs.Numbered.{IsNumbered};
ghost use Rattle.am_clause.specs.Variables.{variables};
ghost use Rattle.am_unify.specs.Unifier.{bindings_answered};
ghost use Rattle.am_rules.specs.Asked.{asked};
ghost use Rattle.am_rules.specs.Inference.{AnswersTwo};
ghost use Rattle.am_rules.specs.Parts.{answer_under};
ghost use Rattle.am_rules.specs.Resolution.{nth_atom, resolvent};
ghost use Rattle.am_rules.specs.Conclusions.{resolved};
ghost use Rattle.am_rules.specs.Solving.{images, solved_apart, made_of_lists as is_made_of, resolution as is_resolution};
ghost use Rattle.am_clause.specs.SortedClause.{is_sorted_clause};
ghost use Rattle.am_clause.specs.Rules.{shared, resolve as resolve_rule};

use crate::asking::{asked_apart, images_of};
use crate::instancing::{instance_of_answer, instances_without, literal_at};
use crate::kinds::suits_resolve;
use crate::numbers::numbered;
use crate::rows::renumber_made;
use am_clause::{Clause, Made, clause_variables, merge};
use am_term::{Ctx, NoMemory, Term};
use am_unify::{Subst, unify};
use sqlite_items::Items;
use std::alloc::Global;

/// The two clauses, of which the first has no variable of the second, resolved by atom i of the first and atom j of
/// the second, places from 1: the row made by most general bindings that make the two atoms one, and the answers if
/// both have one. None exactly where the atoms aren't there as relations of opposite signs, or no well-sorted bindings
/// do.
#[tactic(auto, using(crate::proofs::Concluded::concluding))]
pub fn resolve(
    alloc: Global,
    ctx: &Ctx,
    p: &Clause,
    i: u32,
    q: &Clause,
    j: u32,
) -> Result<Option<Made>, NoMemory>
    ensures is { IfOk result (λ o. o ≡ resolved ctx.now.sig.now ctx.now.ins.now p.now i q.now j) }
    ensures inference { IsNumbered p.now → IsNumbered q.now
        → IsTrue (is_sorted_clause ctx.now.sig.now ctx.now.ins.now p.now)
        → IsTrue (is_sorted_clause ctx.now.sig.now ctx.now.ins.now q.now)
        → IfOk result (λ o. AnswersTwo ctx.now.sig.now ctx.now.ins.now (resolve_rule i j) p.now q.now o) }
{
    let is_suited = suits_resolve(p, i, q, j);
    if !is_suited {
        return Ok(None);
    }
    resolution(alloc, ctx, p, i, q, j)
}

// What the definition by unification gives.
fn resolution(
    alloc: Global,
    ctx: &Ctx,
    p: &Clause,
    i: u32,
    q: &Clause,
    j: u32,
) -> Result<Option<Made>, NoMemory>
    ensures { IfOk result (λ o. o ≡ is_resolution ctx.now.sig.now ctx.now.ins.now p.now i q.now j) }
{
    let variables = clause_variables(alloc, p)?;
    let k = numbered(variables.len())?;
    match solution(alloc, ctx, p, i, q, j, k)? {
        Some(found) => Ok(Some(resolved_by(alloc, p, i, q, j, k, &found)?)),
        None => Ok(None),
    }
}

// The row that is made of these bindings.
fn resolved_by(
    alloc: Global,
    p: &Clause,
    i: u32,
    q: &Clause,
    j: u32,
    k: u32,
    found: &Subst,
) -> Result<Made, NoMemory>
    ensures { IfOk result (λ m. m ≡ is_made_of (resolvent p.now i q.now j) (images found.now.0 0 (variables p.now))
        (images found.now.0 k (variables q.now))) }
{
    let p_variables = clause_variables(alloc, p)?;
    let left = images_of(alloc, found.0.as_slice(), 0, p_variables.as_slice())?;
    let q_variables = clause_variables(alloc, q)?;
    let right = images_of(alloc, found.0.as_slice(), k, q_variables.as_slice())?;
    made_of(alloc, p, i, q, j, left, right)
}

// The bindings by which the named parts become one, the second clause's variables behind those of the first.
#[tactic(auto, using(crate::proofs::Resolved::solving))]
fn solution(
    alloc: Global,
    ctx: &Ctx,
    p: &Clause,
    i: u32,
    q: &Clause,
    j: u32,
    k: u32,
) -> Result<Option<Subst>, NoMemory>
    ensures { IfOk result (λ o. bindings_answered o ≡ solved_apart ctx.now.sig.now ctx.now.ins.now k
        (asked (nth_atom i p.now) (nth_atom j q.now) p.now.answer q.now.answer)) }
{
    match literal_at(p.literals.as_slice(), i) {
        Some(first) => match literal_at(q.literals.as_slice(), j) {
            Some(second) => {
                match asked_apart(alloc, &first.atom, &second.atom, &p.answer, &q.answer, k)? {
                    Some(pairs) => unify(alloc, ctx, pairs.as_slice()),
                    None => Ok(None),
                }
            }
            None => Ok(None),
        },
        None => Ok(None),
    }
}

// The answer's instance, of the first clause that has one.
pub fn joint_answer(
    alloc: Global,
    first: &Option<Items<Term>>,
    left: &[Term],
    second: &Option<Items<Term>>,
    right: &[Term],
) -> Result<Option<Items<Term>>, NoMemory>
    ensures { IfOk result (λ o. o ≡ shared (answer_under left.now first.now) (answer_under right.now second.now)) }
{
    match first {
        Some(_) => instance_of_answer(alloc, first, left),
        None => instance_of_answer(alloc, second, right),
    }
}

// The row that is made of two lists of bindings.
fn made_of(
    alloc: Global,
    p: &Clause,
    i: u32,
    q: &Clause,
    j: u32,
    left: Items<Term>,
    right: Items<Term>,
) -> Result<Made, NoMemory>
    ensures { IfOk result (λ m. m ≡ is_made_of (resolvent p.now i q.now j) left right) }
{
    let mut literals = instances_without(alloc, p.literals.as_slice(), i, left.as_slice())?;
    let others = instances_without(alloc, q.literals.as_slice(), j, right.as_slice())?;
    literals.append(others)?;
    let literals = merge(alloc, literals.as_slice())?;
    let answer = joint_answer(
        alloc,
        &p.answer,
        left.as_slice(),
        &q.answer,
        right.as_slice(),
    )?;
    let with = two_lists(alloc, left, right)?;
    renumber_made(
        alloc,
        &Made {
            clause: Clause { literals, answer },
            with,
        },
    )
}

pub fn two_lists(
    alloc: Global,
    left: Items<Term>,
    right: Items<Term>,
) -> Result<Items<Items<Term>>, NoMemory>
    ensures { IfOk result (λ ws. ws ≡ left ∷ right ∷ []) }
{
    let mut made = Items::new(alloc);
    made.push(left)?;
    made.push(right)?;
    Ok(made)
}
