ghost use Rattle.std.specs.Prelude.{◌≡◌, ◌<◌, ◌≤◌, ℕ, Some, IfOk, length, map, nat_eq};
ghost use Rattle.std.specs.HashMap.{get};
ghost use Rattle.am_term.specs.declared.id.SortId.{SortId};
ghost use Rattle.am_term.specs.declared.term.Term.{Term};
ghost use Rattle.am_term.specs.declared.term.Term.TheViews.{out-Term};
ghost use Rattle.am_unify.specs.Matching.{bind_held, held as is_held, match_all, match_app, matched};
ghost use Rattle.am_unify.specs.Unifier.{IsSortedUnder};
ghost use Rattle.am_bank.specs.Bank.{IsBank};
ghost use Rattle.am_bank.specs.Trees.{tree};
ghost use Rattle.am_sharing.specs.Bound.{id_bound};
ghost use Rattle.am_sharing.specs.Matching.{IsMatchedShared};
ghost use Rattle.am_sharing.specs.Pairs.{answer_at, answer_bound, pairs_at, pairs_bound};
ghost use Rattle.am_sharing.specs.Settled.{AnswerSettled, AreSettled};
ghost use Rattle.am_sharing.specs.SortTable.{IsSortTable};
ghost use Rattle.am_sharing.specs.Terms.{term_at, terms_at};

use crate::binding::{held, inserted};
use crate::node::node_at;
use crate::sorting::sort_shared;
use am_bank::{Bank, Node, SharedSubst, TermId};
use am_term::{Ctx, NoMemory, SortId, SymId, fits};
use sqlite_items::Items;
use std::alloc::Global;
use std::collections::HashMap;

/// The one instance of the pattern's term that the other id's term is, whose variables are constants here: where
/// the pattern is well sorted and its variables of one number have one sort, it binds exactly these to ids
/// of terms whose sorts fit. None exactly where no instance is the term. Equal terms are known by their ids,
/// and no term is made. Where a variable is bound, the sorts of all smaller ids' terms are found once.
pub fn matches_shared(
    alloc: Global,
    ctx: &Ctx,
    bank: &Bank,
    pattern: TermId,
    term: TermId,
) -> Result<Option<SharedSubst>, NoMemory>
    requires pattern { pattern.0 < length bank.now }
    requires term { term.0 < length bank.now }
    ensures { (sorts : ℕ → SortId) (a b : Term) → tree bank.now pattern.0 ≡ Some a → tree bank.now term.0 ≡ Some b
        → IsSortedUnder ctx.now.sig.now ctx.now.ins.now sorts a
        → IfOk result (λ o. IsMatchedShared bank.now ctx.now.sig.now ctx.now.ins.now sorts a b o) }
{
    let mut table = Items::new(alloc);
    matches_tabled(alloc, ctx, bank, &mut table, pattern, term)
}

/// As `matches_shared`, with a table of sorts that is kept from call to call: the sort of each id's term is
/// found once, as far as it is asked for. A new table is empty, and one table serves one signature with sorts
/// of inputs and one bank, which may grow.
pub fn matches_tabled(
    alloc: Global,
    ctx: &Ctx,
    bank: &Bank,
    table: &mut Items<Option<SortId>>,
    pattern: TermId,
    term: TermId,
) -> Result<Option<SharedSubst>, NoMemory>
    requires pattern { pattern.0 < length bank.now }
    requires term { term.0 < length bank.now }
    requires table { IsSortTable ctx.now.sig.now ctx.now.ins.now bank.now table.old }
    ensures answer { (sorts : ℕ → SortId) (a b : Term) → tree bank.now pattern.0 ≡ Some a
        → tree bank.now term.0 ≡ Some b → IsSortedUnder ctx.now.sig.now ctx.now.ins.now sorts a
        → IfOk result (λ o. IsMatchedShared bank.now ctx.now.sig.now ctx.now.ins.now sorts a b o) }
    ensures table { IsSortTable ctx.now.sig.now ctx.now.ins.now bank.now table.new }
{
    let mut settled = HashMap::new(alloc);
    let none = Items::new(alloc);
    match extended(alloc, ctx, bank, table, &mut settled, pattern, term, none)? {
        Some(found) => Ok(Some(SharedSubst(found))),
        None => Ok(None),
    }
}

// What is bound once the pattern is matched too. An application that was matched before is settled, and is not gone
// over again.
#[cycle(matching)]
#[tactic(auto, using(crate::proofs::Matched::extending))]
fn extended(
    alloc: Global,
    ctx: &Ctx,
    bank: &Bank,
    table: &mut Items<Option<SortId>>,
    settled: &mut HashMap<u64, TermId>,
    pattern: TermId,
    term: TermId,
    found: Items<(u32, TermId)>,
) -> Result<Option<Items<(u32, TermId)>>, NoMemory>
    requires pattern { pattern.0 < length bank.now }
    requires term { term.0 < length bank.now }
    requires found { pairs_bound found ≤ length bank.now }
    requires table { IsSortTable ctx.now.sig.now ctx.now.ins.now bank.now table.old }
    requires settled { AreSettled ctx.now.sig.now ctx.now.ins.now bank.now (pairs_at bank.now found)
        (get nat_eq settled.old) }
    ensures is { IfOk result (λ o. answer_at bank.now o ≡ matched ctx.now.sig.now ctx.now.ins.now
        (term_at bank.now pattern.0) (term_at bank.now term.0) (pairs_at bank.now found)) }
    ensures within { IfOk result (λ o. answer_bound o ≤ length bank.now) }
    ensures table { IsSortTable ctx.now.sig.now ctx.now.ins.now bank.now table.new }
    ensures settled { IfOk result (λ o. AnswerSettled ctx.now.sig.now ctx.now.ins.now bank.now o
        (get nat_eq settled.new)) }
{
    match node_at(bank, pattern) {
        Node::Var { n, sort } => variable_bound(alloc, ctx, bank, table, (*n, *sort), term, found),
        Node::In { .. } => {
            if pattern == term {
                return Ok(Some(found));
            }
            Ok(None)
        }
        Node::App { f, args } => {
            if let Some(known) = settled.get(&pattern.0) {
                if *known == term {
                    return Ok(Some(found));
                }
                return Ok(None);
            }
            let head = (*f, args.as_slice());
            let Some(more) = extended_application(
                alloc, ctx, bank, table, settled, head, term, found,
            )?
            else {
                return Ok(None);
            };
            settled.insert(pattern.0, term)?;
            Ok(Some(more))
        }
    }
}

// What is bound once a symbol at some patterns is matched too.
#[cycle(matching)]
#[tactic(auto, using(crate::proofs::Matched::extending))]
fn extended_application(
    alloc: Global,
    ctx: &Ctx,
    bank: &Bank,
    table: &mut Items<Option<SortId>>,
    settled: &mut HashMap<u64, TermId>,
    head: (SymId, &[TermId]),
    term: TermId,
    found: Items<(u32, TermId)>,
) -> Result<Option<Items<(u32, TermId)>>, NoMemory>
    requires head { id_bound head.1.now ≤ length bank.now }
    requires term { term.0 < length bank.now }
    requires found { pairs_bound found ≤ length bank.now }
    requires table { IsSortTable ctx.now.sig.now ctx.now.ins.now bank.now table.old }
    requires settled { AreSettled ctx.now.sig.now ctx.now.ins.now bank.now (pairs_at bank.now found)
        (get nat_eq settled.old) }
    ensures is { IfOk result (λ o. answer_at bank.now o ≡ match_app ctx.now.sig.now ctx.now.ins.now
        head.entry.0 (map (matched ctx.now.sig.now ctx.now.ins.now) (terms_at bank.now head.entry.1.now))
        (out-Term (term_at bank.now term.0)) (pairs_at bank.now found)) }
    ensures within { IfOk result (λ o. answer_bound o ≤ length bank.now) }
    ensures table { IsSortTable ctx.now.sig.now ctx.now.ins.now bank.now table.new }
    ensures settled { IfOk result (λ o. AnswerSettled ctx.now.sig.now ctx.now.ins.now bank.now o
        (get nat_eq settled.new)) }
{
    match node_at(bank, term) {
        Node::Var { .. } => Ok(None),
        Node::In { .. } => Ok(None),
        Node::App { f, args } => {
            if head.0.0 != f.0 {
                return Ok(None);
            }
            extended_all(
                alloc,
                ctx,
                bank,
                table,
                settled,
                head.1,
                args.as_slice(),
                found,
            )
        }
    }
}

// What is bound once as many patterns as terms are matched too.
#[cycle(matching)]
#[tactic(auto, using(crate::proofs::Matched::extending))]
fn extended_all(
    alloc: Global,
    ctx: &Ctx,
    bank: &Bank,
    table: &mut Items<Option<SortId>>,
    settled: &mut HashMap<u64, TermId>,
    patterns: &[TermId],
    terms: &[TermId],
    found: Items<(u32, TermId)>,
) -> Result<Option<Items<(u32, TermId)>>, NoMemory>
    requires patterns { id_bound patterns.now ≤ length bank.now }
    requires terms { id_bound terms.now ≤ length bank.now }
    requires found { pairs_bound found ≤ length bank.now }
    requires table { IsSortTable ctx.now.sig.now ctx.now.ins.now bank.now table.old }
    requires settled { AreSettled ctx.now.sig.now ctx.now.ins.now bank.now (pairs_at bank.now found)
        (get nat_eq settled.old) }
    ensures is { IfOk result (λ o. answer_at bank.now o ≡ match_all
        (map (matched ctx.now.sig.now ctx.now.ins.now) (terms_at bank.now patterns.now)) (terms_at bank.now terms.now)
        (pairs_at bank.now found)) }
    ensures within { IfOk result (λ o. answer_bound o ≤ length bank.now) }
    ensures table { IsSortTable ctx.now.sig.now ctx.now.ins.now bank.now table.new }
    ensures settled { IfOk result (λ o. AnswerSettled ctx.now.sig.now ctx.now.ins.now bank.now o
        (get nat_eq settled.new)) }
{
    if patterns.len() != terms.len() {
        return Ok(None);
    }
    let mut found = found;
    for i in 0..patterns.len() {
        match extended(
            alloc,
            ctx,
            bank,
            table,
            settled,
            patterns[i],
            terms[i],
            found,
        )? {
            Some(more) => found = more,
            None => return Ok(None),
        }
    }
    Ok(Some(found))
}

// A variable that is bound has to meet its id again; another takes an id whose term's sort fits.
#[tactic(auto, using(crate::proofs::Matched::bind_ids))]
fn variable_bound(
    alloc: Global,
    ctx: &Ctx,
    bank: &Bank,
    table: &mut Items<Option<SortId>>,
    variable: (u32, SortId),
    term: TermId,
    found: Items<(u32, TermId)>,
) -> Result<Option<Items<(u32, TermId)>>, NoMemory>
    requires bank { IsBank bank.now }
    requires term { term.0 < length bank.now }
    requires found { pairs_bound found ≤ length bank.now }
    requires table { IsSortTable ctx.now.sig.now ctx.now.ins.now bank.now table.old }
    ensures is { IfOk result (λ o. answer_at bank.now o ≡ bind_held ctx.now.sig.now ctx.now.ins.now variable.0
        variable.1 (term_at bank.now term.0) (pairs_at bank.now found)
        (is_held (pairs_at bank.now found) variable.0 (term_at bank.now term.0))) }
    ensures within { IfOk result (λ o. answer_bound o ≤ length bank.now) }
    ensures table { IsSortTable ctx.now.sig.now ctx.now.ins.now bank.now table.new }
{
    let (n, sort) = variable;
    match held(found.as_slice(), n, term) {
        Some(true) => return Ok(Some(found)),
        Some(false) => return Ok(None),
        None => {}
    }
    let Some(own) = sort_shared(ctx, bank, table, term)? else {
        return Ok(None);
    };
    if !fits(ctx.sig, own, sort) {
        return Ok(None);
    }
    Ok(Some(inserted(alloc, found.as_slice(), n, term)?))
}
