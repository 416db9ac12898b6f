ghost use Rattle.std.specs.Prelude.{◌≡◌, ◌<◌, ◌≤◌, None, IfOk, OnOk, get_or, length};
ghost use Rattle.am_term.specs.Sorting.{fit_places, sort_of, sort_step};
ghost use Rattle.am_sharing.specs.Bound.{id_bound, node_bound};
ghost use Rattle.am_sharing.specs.SortTable.{IsSortTable, node_sorts, sorts_in_table};
ghost use Rattle.am_sharing.specs.Terms.{term_at};

use crate::node::node_at;
use am_bank::{Bank, Node, TermId};
use am_term::{Ctx, NoMemory, Signature, SortId, fits};
use sqlite_items::Items;

/// The sort of an id's term, as `am_term` gives terms their sorts. The table is filled up to the id; a new one is
/// empty, and one table serves one signature with sorts of inputs and one bank, which may grow.
#[tactic(auto, using(crate::proofs::Sorted::sorting_ids))]
pub fn sort_shared(
    ctx: &Ctx,
    bank: &Bank,
    table: &mut Items<Option<SortId>>,
    id: TermId,
) -> Result<Option<SortId>, NoMemory>
    requires id { id.0 < length bank.now }
    requires table { IsSortTable ctx.now.sig.now ctx.now.ins.now bank.now table.old }
    ensures sort { IfOk result (λ s. s ≡ sort_of ctx.now.sig.now ctx.now.ins.now (term_at bank.now id.0)) }
    ensures table { IsSortTable ctx.now.sig.now ctx.now.ins.now bank.now table.new }
{
    fill(ctx, bank, table, id)?;
    Ok(known(table.as_slice(), id))
}

// Fills the table up to an id.
#[tactic(auto, using(crate::proofs::Sorted::sorting_ids))]
fn fill(
    ctx: &Ctx,
    bank: &Bank,
    table: &mut Items<Option<SortId>>,
    id: TermId,
) -> Result<(), NoMemory>
    requires id { id.0 < length bank.now }
    requires table { IsSortTable ctx.now.sig.now ctx.now.ins.now bank.now table.old }
    ensures there { OnOk result (id.0 < length table.new) }
    ensures table { IsSortTable ctx.now.sig.now ctx.now.ins.now bank.now table.new }
{
    while table.len() as u64 <= id.0 {
        let sort = next_sort(ctx, bank, table.as_slice());
        table.push(sort)?;
    }
    Ok(())
}

// The sort of the first id's term that the table doesn't have.
#[tactic(auto, using(crate::proofs::Sorted::sorting_ids))]
fn next_sort(ctx: &Ctx, bank: &Bank, table: &[Option<SortId>]) -> Option<SortId>
    requires id { length table.now < length bank.now }
    requires table { IsSortTable ctx.now.sig.now ctx.now.ins.now bank.now table.now }
    ensures { result ≡ sort_of ctx.now.sig.now ctx.now.ins.now (term_at bank.now (length table.now)) }
{
    let next = node_at(bank, TermId(table.len() as u64));
    node_sort(ctx, table, next)
}

// The sort of a node's term, by those of its arguments.
#[tactic(auto, using(crate::proofs::Sorted::places))]
fn node_sort(ctx: &Ctx, table: &[Option<SortId>], node: &Node) -> Option<SortId>
    requires { node_bound node.now ≤ length table.now }
    ensures { result ≡ sort_step ctx.now.sig.now ctx.now.ins.now (node_sorts table.now node.now) }
{
    match node {
        Node::Var { sort, .. } => {
            if (sort.0 as usize) < ctx.sig.sorts.len() {
                Some(*sort)
            } else {
                None
            }
        }
        Node::In { k } => sqlite_items::at(ctx.ins, *k as usize).copied(),
        Node::App { f, args } => match ctx.sig.symbols.get(f.0 as usize) {
            Some(symbol) => {
                if fit(ctx.sig, table, args.as_slice(), symbol.args.as_slice()) {
                    symbol.result
                } else {
                    None
                }
            }
            None => None,
        },
    }
}

// Whether there are as many ids as places, and the sort of each fits its place.
#[tactic(auto, using(crate::proofs::Sorted::places))]
fn fit(sig: &Signature, table: &[Option<SortId>], ids: &[TermId], places: &[SortId]) -> bool
    requires { id_bound ids.now ≤ length table.now }
    ensures { result ≡ fit_places sig.now (sorts_in_table table.now ids.now) places.now }
{
    if ids.len() != places.len() {
        return false;
    }
    for i in 0..ids.len() {
        match known(table, ids[i]) {
            Some(sort) => {
                if !fits(sig, sort, places[i]) {
                    return false;
                }
            }
            None => return false,
        }
    }
    true
}

// What the table holds for an id.
#[tactic(auto, using(crate::proofs::Sorted::places))]
fn known(table: &[Option<SortId>], id: TermId) -> Option<SortId>
    requires { id.0 < length table.now }
    ensures { result ≡ get_or table.now id.0 None }
{
    table[id.0 as usize]
}
