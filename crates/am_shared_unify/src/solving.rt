ghost use Rattle.std.specs.Prelude.{◌≡◌, ◌≤◌, ℕ, List, Some, IfOk, length};
ghost use Rattle.am_term.specs.declared.id.SortId.{SortId};
ghost use Rattle.am_term.specs.declared.term.Term.{Term};
ghost use Rattle.am_unify.specs.Mgu.{mgu};
ghost use Rattle.am_unify.specs.Opening.{Reaches};
ghost use Rattle.am_unify.specs.Unifier.{AreSortedUnder};
ghost use Rattle.am_bank.specs.Bank.{Grows};
ghost use Rattle.am_sharing.specs.Pairs.{answer_at, answer_bound};
ghost use Rattle.am_sharing.specs.SortTable.{IsSortTable};
ghost use Rattle.am_shared_unify.specs.Opening.{step_at, step_bound};
ghost use Rattle.am_shared_unify.specs.Sides.{term_sides};
ghost use Rattle.am_shared_unify.specs.Unifying.{IsSolvedShared, IsUnifiedShared, pair_ids_bound, pairs_of};

use crate::applying::{applied, replaced_in};
use crate::opening::{Opened, open};
use am_bank::{Bank, SharedSubst, TermId};
use am_sharing::inserted;
use am_term::{Ctx, NoMemory, SortId};
use sqlite_items::Items;
use std::alloc::Global;

// What comes next: no pairs are left, or there is no unifier, or a binding with the pairs that are left.
#[derive(Drop)]
pub enum Step {
    Done,
    Stuck,
    Next {
        n: u32,
        id: TermId,
        rest: Items<(TermId, TermId)>,
    },
}

/// A most general unifier of the pairs of terms that the ids stand for, with an id for each term that a variable
/// is bound to: where the terms are well sorted and equal numbers of variables have equal sorts, it makes both
/// sides of each pair one by well-sorted terms whose sorts fit, and every unifier by such terms factors through
/// it. None exactly where the textbook recursion gives none, and so exactly where there is no unifier. Of two
/// variables of one sort the left one is bound. Two terms are known to be one by their ids. Each new term becomes
/// a node of the bank; old ids stand for what they stood for, also after None or a refusal.
#[tactic(auto, using(crate::proofs::Solved::unifying))]
pub fn unify_shared(
    alloc: Global,
    ctx: &Ctx,
    bank: &mut Bank,
    pairs: &[(TermId, TermId)],
) -> Result<Option<SharedSubst>, NoMemory>
    requires pairs { pair_ids_bound pairs.now ≤ length bank.old }
    ensures textbook { (ps : List (Term × Term)) → pairs_of bank.old pairs.now ≡ Some ps
        → IfOk result (λ o. IsUnifiedShared bank.new o (mgu ctx.now.sig.now ctx.now.ins.now ps)) }
    ensures most_general { (sorts : ℕ → SortId) (ps : List (Term × Term)) → pairs_of bank.old pairs.now ≡ Some ps
        → AreSortedUnder ctx.now.sig.now ctx.now.ins.now sorts ps
        → IfOk result (λ o. IsSolvedShared bank.new ctx.now.sig.now ctx.now.ins.now sorts ps o) }
    ensures grows { Grows bank.old bank.new }
    ensures longer { length bank.old ≤ length bank.new }
{
    let mut table = Items::new(alloc);
    let todo = Items::from_slice(alloc, pairs)?;
    match solve(alloc, ctx, bank, &mut table, todo)? {
        Some(found) => Ok(Some(SharedSubst(found))),
        None => Ok(None),
    }
}

// The recursion, from one binding to the next.
#[tactic(auto, using(crate::proofs::Solved::solving))]
fn solve(
    alloc: Global,
    ctx: &Ctx,
    bank: &mut Bank,
    table: &mut Items<Option<SortId>>,
    pairs: Items<(TermId, TermId)>,
) -> Result<Option<Items<(u32, TermId)>>, NoMemory>
    requires pairs { pair_ids_bound pairs ≤ length bank.old }
    requires table { IsSortTable ctx.now.sig.now ctx.now.ins.now bank.old table.old }
    ensures is { IfOk result (λ o. answer_at bank.new o ≡ mgu ctx.now.sig.now ctx.now.ins.now
        (term_sides bank.old pairs)) }
    ensures within { IfOk result (λ o. answer_bound o ≤ length bank.new) }
    ensures grows { Grows bank.old bank.new }
    ensures longer { length bank.old ≤ length bank.new }
{
    match next_binding(alloc, ctx, bank, table, pairs)? {
        Step::Done => Ok(Some(Items::new(alloc))),
        Step::Stuck => Ok(None),
        Step::Next { n, id, rest } => {
            let left = replaced_in(alloc, bank, rest.as_slice(), n, id)?;
            match solve(alloc, ctx, bank, table, left)? {
                Some(found) => {
                    let image = applied(alloc, bank, found.as_slice(), id)?;
                    Ok(Some(inserted(alloc, found.as_slice(), n, image)?))
                }
                None => Ok(None),
            }
        }
    }
}

// Deletes and decomposes pairs until a binding is asked for.
#[tactic(auto, using(crate::proofs::Solved::stepping))]
fn next_binding(
    alloc: Global,
    ctx: &Ctx,
    bank: &Bank,
    table: &mut Items<Option<SortId>>,
    pairs: Items<(TermId, TermId)>,
) -> Result<Step, NoMemory>
    requires pairs { pair_ids_bound pairs ≤ length bank.now }
    requires table { IsSortTable ctx.now.sig.now ctx.now.ins.now bank.now table.old }
    ensures is { IfOk result (λ s. Reaches ctx.now.sig.now ctx.now.ins.now (term_sides bank.now pairs)
        (step_at bank.now s)) }
    ensures within { IfOk result (λ s. step_bound s ≤ length bank.now) }
    ensures table { IsSortTable ctx.now.sig.now ctx.now.ins.now bank.now table.new }
{
    let mut todo = pairs;
    'opening: while !todo.is_empty() {
        let (left, right) = todo.remove(0);
        match open(alloc, ctx, bank, table, left, right)? {
            Opened::More(more) => {
                let mut more = more;
                more.append(todo)?;
                todo = more;
            }
            Opened::Bind { n, id } => return Ok(Step::Next { n, id, rest: todo }),
            Opened::Clash => return Ok(Step::Stuck),
        }
    }
    Ok(Step::Done)
}
