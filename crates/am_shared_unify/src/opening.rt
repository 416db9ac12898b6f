ghost use Rattle.std.specs.Prelude.{◌≡◌, ◌<◌, ◌≤◌, IfOk, length};
ghost use Rattle.std.specs.List.{zip};
ghost use Rattle.am_term.specs.declared.term.Term.TheVariants.{App, Var};
ghost use Rattle.am_unify.specs.Opening.{open_bind as is_open_bind, open_heads, open_term as is_open_term, open_variables as is_open_variables, opened as is_opened};
ghost use Rattle.am_bank.specs.Bank.{IsBank};
ghost use Rattle.am_sharing.specs.Bound.{id_bound};
ghost use Rattle.am_sharing.specs.SortTable.{IsSortTable};
ghost use Rattle.am_sharing.specs.Terms.{term_at, terms_at};
ghost use Rattle.am_shared_unify.specs.Opening.{opened_at, opened_bound};

use crate::occurring::occurs;
use am_bank::{Bank, Node, TermId};
use am_sharing::{node_at, sort_shared};
use am_term::{Ctx, NoMemory, SortId, fits};
use sqlite_items::Items;
use std::alloc::Global;

// What a pair asks for: other pairs in its place, a binding, or nothing that could make it one.
#[derive(Drop)]
pub enum Opened {
    More(Items<(TermId, TermId)>),
    Bind { n: u32, id: TermId },
    Clash,
}

// What a pair of ids asks for. Equal terms are known by their ids.
#[tactic(auto, using(crate::proofs::Heads::heads))]
pub fn open(
    alloc: Global,
    ctx: &Ctx,
    bank: &Bank,
    table: &mut Items<Option<SortId>>,
    left: TermId,
    right: TermId,
) -> Result<Opened, NoMemory>
    requires left { left.0 < length bank.now }
    requires right { right.0 < length bank.now }
    requires table { IsSortTable ctx.now.sig.now ctx.now.ins.now bank.now table.old }
    ensures is { IfOk result (λ o. opened_at bank.now o ≡ is_opened ctx.now.sig.now ctx.now.ins.now
        (term_at bank.now left.0) (term_at bank.now right.0)) }
    ensures within { IfOk result (λ o. opened_bound o ≤ length bank.now) }
    ensures table { IsSortTable ctx.now.sig.now ctx.now.ins.now bank.now table.new }
{
    if left == right {
        return Ok(Opened::More(Items::new(alloc)));
    }
    match node_at(bank, left) {
        Node::Var { n, sort } => match node_at(bank, right) {
            Node::Var { n: m, sort: other } => open_variables(
                alloc,
                ctx,
                bank,
                (*n, *sort, left),
                (*m, *other, right),
            ),
            Node::In { .. } => open_term(alloc, ctx, bank, table, (*n, *sort), right),
            Node::App { .. } => open_term(alloc, ctx, bank, table, (*n, *sort), right),
        },
        Node::In { .. } => match node_at(bank, right) {
            Node::Var { n, sort } => open_term(alloc, ctx, bank, table, (*n, *sort), left),
            Node::In { .. } => Ok(Opened::Clash),
            Node::App { .. } => Ok(Opened::Clash),
        },
        Node::App { f, args } => match node_at(bank, right) {
            Node::Var { n, sort } => open_term(alloc, ctx, bank, table, (*n, *sort), left),
            Node::In { .. } => Ok(Opened::Clash),
            Node::App { f: g, args: others } => {
                if f.0 != g.0 || args.len() != others.len() {
                    return Ok(Opened::Clash);
                }
                Ok(Opened::More(zipped(alloc, args.as_slice(), others.as_slice())?))
            }
        },
    }
}

// Two variables: that one is bound whose sort the other's fits, the left one if the sorts are equal.
fn open_variables(
    alloc: Global,
    ctx: &Ctx,
    bank: &Bank,
    left: (u32, SortId, TermId),
    right: (u32, SortId, TermId),
) -> Result<Opened, NoMemory>
    requires left { left.2.0 < length bank.now }
    requires right { right.2.0 < length bank.now }
    requires variable { term_at bank.now left.2.0 ≡ Var left.0 left.1 }
    requires other { term_at bank.now right.2.0 ≡ Var right.0 right.1 }
    ensures is { IfOk result (λ o. opened_at bank.now o ≡ is_open_variables ctx.now.sig.now ctx.now.ins.now left.0
        left.1 right.0 right.1) }
    ensures within { IfOk result (λ o. opened_bound o ≤ length bank.now) }
{
    if fits(ctx.sig, right.1, left.1) {
        return open_bind(alloc, bank, left.0, right.2);
    }
    if fits(ctx.sig, left.1, right.1) {
        return open_bind(alloc, bank, right.0, left.2);
    }
    Ok(Opened::Clash)
}

// A variable and another term: it is bound if the term's sort fits.
fn open_term(
    alloc: Global,
    ctx: &Ctx,
    bank: &Bank,
    table: &mut Items<Option<SortId>>,
    variable: (u32, SortId),
    id: TermId,
) -> Result<Opened, NoMemory>
    requires id { id.0 < length bank.now }
    requires table { IsSortTable ctx.now.sig.now ctx.now.ins.now bank.now table.old }
    ensures is { IfOk result (λ o. opened_at bank.now o ≡ is_open_term ctx.now.sig.now ctx.now.ins.now variable.0
        variable.1 (term_at bank.now id.0)) }
    ensures within { IfOk result (λ o. opened_bound o ≤ length bank.now) }
    ensures table { IsSortTable ctx.now.sig.now ctx.now.ins.now bank.now table.new }
{
    let Some(own) = sort_shared(ctx, bank, table, id)? else {
        return Ok(Opened::Clash);
    };
    if !fits(ctx.sig, own, variable.1) {
        return Ok(Opened::Clash);
    }
    open_bind(alloc, bank, variable.0, id)
}

// A variable isn't bound to a term in which it stands.
fn open_bind(alloc: Global, bank: &Bank, n: u32, id: TermId) -> Result<Opened, NoMemory>
    requires { id.0 < length bank.now }
    ensures is { IfOk result (λ o. opened_at bank.now o ≡ is_open_bind n (term_at bank.now id.0)) }
    ensures within { IfOk result (λ o. opened_bound o ≤ length bank.now) }
{
    if occurs(alloc, bank, n, id)? {
        return Ok(Opened::Clash);
    }
    Ok(Opened::Bind { n, id })
}

// The pairs of the members of two lists.
#[tactic(auto, using(crate::proofs::Heads::zipping))]
fn zipped(
    alloc: Global,
    left: &[TermId],
    right: &[TermId],
) -> Result<Items<(TermId, TermId)>, NoMemory>
    requires { length left.now ≡ length right.now }
    ensures { IfOk result (λ ps. ps ≡ zip left.now right.now) }
{
    let mut made = Items::new(alloc);
    for i in 0..left.len() {
        made.push((left[i], right[i]))?;
    }
    Ok(made)
}
