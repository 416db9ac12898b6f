ghost use Rattle.std.specs.Prelude.{◌≡◌, ℕ, IfOk};
ghost use Rattle.am_term.specs.declared.id.SortId.{SortId};
ghost use Rattle.am_unify.specs.Mgu.{mgu};
ghost use Rattle.am_unify.specs.Opening.{Reaches};
ghost use Rattle.am_unify.specs.Unifier.{AreSortedUnder, IsSolved, bindings_answered};

use crate::applying::{applied, inserted, replaced_in};
use crate::opening::{Opened, open};
use crate::substitution::Subst;
use am_term::{Ctx, NoMemory, Term, copy};
use sqlite_items::Items;
use std::alloc::Global;

// What comes next: no pairs are left, or there is no unifier, or a binding with the pairs that are left.
#[derive(Drop)]
pub enum Step {
    Done,
    Stuck,
    Next {
        n: u32,
        term: Term,
        rest: Items<(Term, Term)>,
    },
}

/// A most general unifier of the pairs: where the terms are well sorted and equal numbers of variables
/// have equal sorts, it makes both sides of each pair one by well-sorted terms whose sorts fit, and
/// every unifier by such terms factors through it. None exactly where the textbook recursion gives
/// none, and so exactly where there is no unifier. Of two variables of one sort the left one is bound.
#[tactic(auto, using(crate::proofs::Unified::unified))]
pub fn unify(alloc: Global, ctx: &Ctx, pairs: &[(Term, Term)]) -> Result<Option<Subst>, NoMemory>
    ensures textbook { IfOk result (λ o. bindings_answered o ≡ mgu ctx.now.sig.now ctx.now.ins.now pairs.now) }
    ensures most_general { (sorts : ℕ → SortId) → AreSortedUnder ctx.now.sig.now ctx.now.ins.now sorts pairs.now
        → IfOk result (λ o. IsSolved ctx.now.sig.now ctx.now.ins.now sorts pairs.now (bindings_answered o)) }
{
    let mut todo = Items::new(alloc);
    for pair in pairs {
        let left = copy(alloc, &pair.0)?;
        let right = copy(alloc, &pair.1)?;
        todo.push((left, right))?;
    }
    match solve(alloc, ctx, todo)? {
        Some(found) => Ok(Some(Subst(found))),
        None => Ok(None),
    }
}

// The recursion, from one binding to the next.
#[tactic(auto, using(crate::proofs::Unified::solving))]
fn solve(
    alloc: Global,
    ctx: &Ctx,
    pairs: Items<(Term, Term)>,
) -> Result<Option<Items<(u32, Term)>>, NoMemory>
    ensures { IfOk result (λ o. o ≡ mgu ctx.now.sig.now ctx.now.ins.now pairs) }
{
    match next_binding(alloc, ctx, pairs)? {
        Step::Done => Ok(Some(Items::new(alloc))),
        Step::Stuck => Ok(None),
        Step::Next { n, term, rest } => {
            let left = replaced_in(alloc, rest.as_slice(), n, &term)?;
            match solve(alloc, ctx, left)? {
                Some(found) => {
                    let image = applied(alloc, &term, found.as_slice())?;
                    Ok(Some(inserted(alloc, found, n, image)?))
                }
                None => Ok(None),
            }
        }
    }
}

// Deletes and decomposes pairs until a binding is asked for.
#[tactic(auto, using(crate::proofs::Unified::stepping))]
fn next_binding(alloc: Global, ctx: &Ctx, pairs: Items<(Term, Term)>) -> Result<Step, NoMemory>
    ensures { IfOk result (λ s. Reaches ctx.now.sig.now ctx.now.ins.now pairs s) }
{
    let mut todo = pairs;
    'opening: while !todo.is_empty() {
        let (left, right) = todo.remove(0);
        match open(alloc, ctx, left, right)? {
            Opened::More(more) => {
                let mut more = more;
                more.append(todo)?;
                todo = more;
            }
            Opened::Bind { n, term } => return Ok(Step::Next {
                n,
                term,
                rest: todo,
            }),
            Opened::Clash => return Ok(Step::Stuck),
        }
    }
    Ok(Step::Done)
}
