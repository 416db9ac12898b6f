ghost use Rattle.std.specs.Prelude.{◌≡◌, IfOk, IsTrue};
ghost use Rattle.am_clause.specs.Numbered.{IsNumbered};
ghost use Rattle.am_clause.specs.SortedClause.{is_sorted_clause};
ghost use Rattle.am_rules.specs.Conclusions.{rewritten};
ghost use Rattle.am_rules.specs.Inference.{AnswersRewrite};
ghost use Rattle.am_rules.specs.Paramodulation.{side_in, part_in};
ghost use Rattle.am_rules.specs.Rewriting.{own_terms as are_own_terms, found_match, rewriting_made, rewriting_found};

use crate::asking::images_of;
use crate::kinds::suits_rewrite;
use crate::matching::match_terms;
use crate::paramodulating::{if_sorted, made_of, part_at, side_at};
use am_clause::{Clause, Made, Side, clause_variables};
use am_term::{Ctx, NoMemory, SortId, Term};
use sqlite_items::Items;
use std::alloc::Global;

/// The second clause with the part of literal i at a path replaced by the other side of the first, which is one
/// positive equation without an answer, by the bindings of the first's variables that make its named side that part:
/// the second's variables are constants. A variable of the first that isn't bound stays as it is. None exactly where
/// the clauses aren't of that kind, there is no such part, no well-sorted bindings do, or the conclusion isn't well
/// sorted.
#[tactic(auto, using(crate::proofs::Concluded::concluding))]
pub fn rewrite(
    alloc: Global,
    ctx: &Ctx,
    p: &Clause,
    side: Side,
    q: &Clause,
    i: u32,
    path: &[u32],
) -> Result<Option<Made>, NoMemory>
    ensures is { IfOk result (λ o. o ≡ rewritten ctx.now.sig.now ctx.now.ins.now p.now side q.now i path.now) }
    ensures inference { IsNumbered p.now → IsNumbered q.now
        → IsTrue (is_sorted_clause ctx.now.sig.now ctx.now.ins.now p.now)
        → IsTrue (is_sorted_clause ctx.now.sig.now ctx.now.ins.now q.now)
        → IfOk result (λ o. AnswersRewrite ctx.now.sig.now ctx.now.ins.now p.now side q.now i path.now o) }
{
    let is_suited = suits_rewrite(p, side, q, i, path);
    if !is_suited {
        return Ok(None);
    }
    let found = rewriting(alloc, ctx, p, side, q, i, path)?;
    Ok(if_sorted(ctx, found))
}

// What the definition by matching gives.
fn rewriting(
    alloc: Global,
    ctx: &Ctx,
    p: &Clause,
    side: Side,
    q: &Clause,
    i: u32,
    path: &[u32],
) -> Result<Option<Made>, NoMemory>
    ensures { IfOk result (λ o. o ≡ rewriting_found ctx.now.sig.now ctx.now.ins.now p.now side q.now i path.now) }
{
    match match_at(alloc, ctx, p, side, q, i, path)? {
        Some(found) => Ok(Some(rewritten_by(alloc, p, side, q, i, path, found.as_slice())?)),
        None => Ok(None),
    }
}

// The bindings by which the side is the part.
fn match_at(
    alloc: Global,
    ctx: &Ctx,
    p: &Clause,
    side: Side,
    q: &Clause,
    i: u32,
    path: &[u32],
) -> Result<Option<Items<(u32, Term)>>, NoMemory>
    ensures { IfOk result (λ o. o ≡ found_match ctx.now.sig.now ctx.now.ins.now (side_in p.now 1 side)
        (part_in q.now i path.now)) }
{
    match side_at(p, 1, side) {
        Some(pattern) => match part_at(q, i, path) {
            Some(part) => match_terms(alloc, ctx, pattern, part),
            None => Ok(None),
        },
        None => Ok(None),
    }
}

// The row that is made of these bindings.
fn rewritten_by(
    alloc: Global,
    p: &Clause,
    side: Side,
    q: &Clause,
    i: u32,
    path: &[u32],
    found: &[(u32, Term)],
) -> Result<Made, NoMemory>
    ensures { IfOk result (λ m. m ≡ rewriting_made p.now side q.now i path.now found.now) }
{
    let p_variables = clause_variables(alloc, p)?;
    let left = images_of(alloc, found, 0, p_variables.as_slice())?;
    let q_variables = clause_variables(alloc, q)?;
    let right = own_terms(alloc, q_variables.as_slice())?;
    made_of(alloc, p, 1, side, q, i, path, left, right)
}

// Each variable as a term.
#[tactic(auto, using(crate::proofs::Walks::applying))]
fn own_terms(alloc: Global, variables: &[(u32, SortId)]) -> Result<Items<Term>, NoMemory>
    ensures { IfOk result (λ ts. ts ≡ are_own_terms variables.now) }
{
    let mut made = Items::new(alloc);
    let mut rest = variables;
    'terms: while let [variable, behind @ ..] = rest {
        made.push(Term::Var {
            n: variable.0,
            sort: variable.1,
        })?;
        rest = behind;
    }
    Ok(made)
}
