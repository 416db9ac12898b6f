ghost use Rattle.std.specs.Prelude.{◌≡◌, ◌∷◌, [], IfOk, IsTrue, option_copied, option_map};
ghost use Rattle.am_term.specs.Instance.{instance};
ghost use Rattle.am_clause.specs.Numbered.{IsNumbered};
ghost use Rattle.am_clause.specs.Variables.{variables};
ghost use Rattle.am_unify.specs.Unifier.{bindings_answered};
ghost use Rattle.am_rules.specs.Inference.{AnswersSorted};
ghost use Rattle.am_clause.specs.Rules.{para as para_rule};
ghost use Rattle.am_rules.specs.Conclusions.{paramodulated};
ghost use Rattle.am_rules.specs.Solving.{apart, images, solved_apart, made_of_lists as is_made_of};
ghost use Rattle.am_rules.specs.Paramodulation.{side_in as is_side_at, other_in as is_other_at, part_in as is_part_at, paramodulant, replaced_literals, term_pairs, para_pairs, paramodulation as is_paramodulation, sorted_only};
ghost use Rattle.am_clause.specs.SortedClause.{is_sorted_clause};

use crate::asking::{answers_apart, images_of, shift};
use crate::instancing::{instance_of, instances_without, literal_at};
use crate::kinds::suits_para;
use crate::numbers::numbered;
use crate::replacing::{instances_changed, other_of, part_of, side_of};
use crate::resolving::{joint_answer, two_lists};
use crate::rows::renumber_made;
use crate::sorting::is_sorted;
use am_clause::{Clause, Made, Side, clause_variables, merge};
use am_term::{Ctx, Literal, NoMemory, Term, copy};
use am_unify::{Subst, unify};
use sqlite_items::Items;
use std::alloc::Global;

/// The second clause with the part of literal i at a path replaced by the other side of equation j of the first, by
/// most general bindings that make the named side and the part one, and the answers if both have one. None exactly
/// where the equation isn't there or not positive, there is no such part, no well-sorted bindings do, or the conclusion
/// isn't well sorted.
#[tactic(auto, using(crate::proofs::Concluded::concluding))]
pub fn paramodulate(
    alloc: Global,
    ctx: &Ctx,
    p: &Clause,
    j: u32,
    side: Side,
    q: &Clause,
    i: u32,
    path: &[u32],
) -> Result<Option<Made>, NoMemory>
    ensures is { IfOk result (λ o. o ≡ paramodulated ctx.now.sig.now ctx.now.ins.now p.now j side q.now i path.now) }
    ensures inference { IsNumbered p.now → IsNumbered q.now
        → IsTrue (is_sorted_clause ctx.now.sig.now ctx.now.ins.now p.now)
        → IsTrue (is_sorted_clause ctx.now.sig.now ctx.now.ins.now q.now)
        → IfOk result (λ o. AnswersSorted ctx.now.sig.now ctx.now.ins.now (para_rule j side i path.now) p.now q.now o) }
{
    let is_suited = suits_para(p, j, side, q, i, path);
    if !is_suited {
        return Ok(None);
    }
    let found = paramodulation(alloc, ctx, p, j, side, q, i, path)?;
    Ok(if_sorted(ctx, found))
}

/// A row whose clause isn't well sorted is none.
pub fn if_sorted(ctx: &Ctx, found: Option<Made>) -> Option<Made>
    ensures { result ≡ sorted_only ctx.now.sig.now ctx.now.ins.now found }
{
    match found {
        Some(made) => {
            if is_sorted(ctx, &made.clause) {
                return Some(made);
            }
            None
        }
        None => None,
    }
}

// What the definition by unification gives.
fn paramodulation(
    alloc: Global,
    ctx: &Ctx,
    p: &Clause,
    j: u32,
    side: Side,
    q: &Clause,
    i: u32,
    path: &[u32],
) -> Result<Option<Made>, NoMemory>
    ensures { IfOk result (λ o. o ≡ is_paramodulation ctx.now.sig.now ctx.now.ins.now p.now j side q.now i path.now) }
{
    let variables = clause_variables(alloc, p)?;
    let k = numbered(variables.len())?;
    match solution(alloc, ctx, p, j, side, q, i, path, k)? {
        Some(found) => Ok(Some(replaced_by(alloc, p, j, side, q, i, path, k, &found)?)),
        None => Ok(None),
    }
}

// The row that is made of these bindings.
fn replaced_by(
    alloc: Global,
    p: &Clause,
    j: u32,
    side: Side,
    q: &Clause,
    i: u32,
    path: &[u32],
    k: u32,
    found: &Subst,
) -> Result<Made, NoMemory>
    ensures { IfOk result (λ m. m ≡ is_made_of (paramodulant p.now j side q.now i path.now)
        (images found.now.0 0 (variables p.now)) (images found.now.0 k (variables q.now))) }
{
    let p_variables = clause_variables(alloc, p)?;
    let left = images_of(alloc, found.0.as_slice(), 0, p_variables.as_slice())?;
    let q_variables = clause_variables(alloc, q)?;
    let right = images_of(alloc, found.0.as_slice(), k, q_variables.as_slice())?;
    made_of(alloc, p, j, side, q, i, path, left, right)
}

// The bindings by which the named parts become one, the second clause's variables behind those of the first.
#[tactic(auto, using(crate::proofs::Resolved::solving))]
fn solution(
    alloc: Global,
    ctx: &Ctx,
    p: &Clause,
    j: u32,
    side: Side,
    q: &Clause,
    i: u32,
    path: &[u32],
    k: u32,
) -> Result<Option<Subst>, NoMemory>
    ensures { IfOk result (λ o. bindings_answered o ≡ solved_apart ctx.now.sig.now ctx.now.ins.now k
        (para_pairs p.now j side q.now i path.now)) }
{
    match terms_apart(alloc, p, j, side, q, i, path, k)? {
        Some(pairs) => match answers_apart(alloc, &p.answer, &q.answer, k)? {
            Some(more) => {
                let mut pairs = pairs;
                pairs.append(more)?;
                unify(alloc, ctx, pairs.as_slice())
            }
            None => Ok(None),
        },
        None => Ok(None),
    }
}

// The pair of the side and the part.
fn terms_apart(
    alloc: Global,
    p: &Clause,
    j: u32,
    side: Side,
    q: &Clause,
    i: u32,
    path: &[u32],
    k: u32,
) -> Result<Option<Items<(Term, Term)>>, NoMemory>
    ensures { IfOk result (λ o. o ≡ option_map (apart k)
        (term_pairs (is_side_at p.now j side) (is_part_at q.now i path.now))) }
{
    match side_at(p, j, side) {
        Some(first) => match part_at(q, i, path) {
            Some(second) => Ok(Some(one_apart(alloc, first, second, k)?)),
            None => Ok(None),
        },
        None => Ok(None),
    }
}

fn one_apart(
    alloc: Global,
    first: &Term,
    second: &Term,
    k: u32,
) -> Result<Items<(Term, Term)>, NoMemory>
    ensures { IfOk result (λ ps. ps ≡ apart k ((first.now, second.now) ∷ [])) }
{
    let mut made = Items::new(alloc);
    let first = copy(alloc, first)?;
    let second = shift(alloc, second, k)?;
    made.push((first, second))?;
    Ok(made)
}

/// That side of equation j.
pub fn side_at(p: &Clause, j: u32, side: Side) -> Option<&Term>
    ensures { option_copied result ≡ is_side_at p.now j side }
{
    match literal_at(p.literals.as_slice(), j) {
        Some(literal) => side_of(&literal.atom, side),
        None => None,
    }
}

fn other_at(p: &Clause, j: u32, side: Side) -> Option<&Term>
    ensures { option_copied result ≡ is_other_at p.now j side }
{
    match literal_at(p.literals.as_slice(), j) {
        Some(literal) => other_of(&literal.atom, side),
        None => None,
    }
}

/// The part of literal i at a path.
pub fn part_at<'a>(q: &'a Clause, i: u32, path: &[u32]) -> Option<&'a Term>
    ensures { option_copied result ≡ is_part_at q.now i path.now }
{
    match literal_at(q.literals.as_slice(), i) {
        Some(literal) => part_of(&literal.atom, path),
        None => None,
    }
}

// The instance of the other side, which comes in.
fn new_part(
    alloc: Global,
    p: &Clause,
    j: u32,
    side: Side,
    left: &[Term],
) -> Result<Option<Term>, NoMemory>
    ensures { IfOk result (λ o. o ≡ option_map (instance left.now) (is_other_at p.now j side)) }
{
    match other_at(p, j, side) {
        Some(term) => Ok(Some(instance_of(alloc, term, left)?)),
        None => Ok(None),
    }
}

/// The row that is made of two lists of bindings.
pub fn made_of(
    alloc: Global,
    p: &Clause,
    j: u32,
    side: Side,
    q: &Clause,
    i: u32,
    path: &[u32],
    left: Items<Term>,
    right: Items<Term>,
) -> Result<Made, NoMemory>
    ensures { IfOk result (λ m. m ≡ is_made_of (paramodulant p.now j side q.now i path.now) left right) }
{
    let literals = replaced(
        alloc,
        p,
        j,
        side,
        q,
        i,
        path,
        left.as_slice(),
        right.as_slice(),
    )?;
    let literals = merge(alloc, literals.as_slice())?;
    let answer = joint_answer(
        alloc,
        &p.answer,
        left.as_slice(),
        &q.answer,
        right.as_slice(),
    )?;
    let with = two_lists(alloc, left, right)?;
    renumber_made(
        alloc,
        &Made {
            clause: Clause { literals, answer },
            with,
        },
    )
}

// The literals of the conclusion, before equal ones are merged.
fn replaced(
    alloc: Global,
    p: &Clause,
    j: u32,
    side: Side,
    q: &Clause,
    i: u32,
    path: &[u32],
    left: &[Term],
    right: &[Term],
) -> Result<Items<Literal>, NoMemory>
    ensures { IfOk result (λ ls. ls ≡ replaced_literals p.now j side q.now i path.now left.now right.now) }
{
    let new = new_part(alloc, p, j, side, left)?;
    let mut literals = instances_changed(alloc, q.literals.as_slice(), right, i, path, &new)?;
    let others = instances_without(alloc, p.literals.as_slice(), j, left)?;
    literals.append(others)?;
    Ok(literals)
}
