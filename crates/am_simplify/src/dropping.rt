ghost use Rattle.std.specs.Prelude.{◌≡◌, ◌≤◌, IfOk};
ghost use Rattle.std.specs.List.{list_any};
ghost use Rattle.am_simplify.specs.Reasons.{are_heavy, has_abstract, is_heavy, is_heavy_answer, is_open, is_uncomputed, own_reason as first_own, reason, subsumer, too_big as is_too_big};

use crate::reason::Reason;
use crate::subsuming::subsumes;
use am_clause::{Clause, is_tautology, weight_of};
use am_rules::close;
use am_term::{Ctx, NoMemory, Signature, Term, weight as weight_of_term};
use sqlite_items::Items;
use std::alloc::Global;

/// The first reason for which a clause that was made with these bindings is dropped: one of its own, or that a row
/// that is kept, each with its number, subsumes it. `weight` is the most that a clause or a term may weigh.
pub fn drop_reason(
    alloc: Global,
    ctx: &Ctx,
    weight: u32,
    kept: &[(u32, Clause)],
    clause: &Clause,
    with: &[Items<Term>],
) -> Result<Option<Reason>, NoMemory>
    requires limit { weight ≤ 1000000 }
    ensures { IfOk result (λ r. r ≡ reason ctx.now.sig.now ctx.now.ins.now weight kept.now clause.now with.now) }
{
    if let Some(found) = own_reason(alloc, ctx, weight, clause, with)? {
        return Ok(Some(found));
    }
    match first_subsumer(ctx, kept, clause) {
        Some(number) => Ok(Some(Reason::Subsumed(number))),
        None => Ok(None),
    }
}

/// The first of the reasons that don't look at other rows.
pub fn own_reason(
    alloc: Global,
    ctx: &Ctx,
    weight: u32,
    clause: &Clause,
    with: &[Items<Term>],
) -> Result<Option<Reason>, NoMemory>
    requires limit { weight ≤ 1000000 }
    ensures { IfOk result (λ r. r ≡ first_own ctx.now.sig.now ctx.now.ins.now weight clause.now with.now) }
{
    if is_tautology(clause) {
        return Ok(Some(Reason::Tautology));
    }
    if let Some(found) = too_big(weight, clause, with) {
        return Ok(Some(found));
    }
    if uncomputed(ctx.sig, &clause.answer) {
        return Ok(Some(Reason::AnswerNotComputable));
    }
    if open(alloc, ctx, clause)? {
        return Ok(Some(Reason::OpenAnswer));
    }
    Ok(None)
}

/// Whether a clause has more than 16 literals, or it, a term of its answer or one of the bindings weighs more than
/// `weight`. Takes no memory.
pub fn too_big(weight: u32, clause: &Clause, with: &[Items<Term>]) -> Option<Reason>
    requires limit { weight ≤ 1000000 }
    ensures { result ≡ is_too_big weight clause.now with.now }
{
    if clause.literals.len() > 16 {
        return Some(Reason::Wide);
    }
    if heavy(weight, clause, with) {
        return Some(Reason::Heavy);
    }
    None
}

fn heavy(most: u32, clause: &Clause, with: &[Items<Term>]) -> bool
    requires limit { most ≤ 1000000 }
    ensures { result ≡ is_heavy most clause.now with.now }
{
    weight_of(clause, most) > most || heavy_answer(most, &clause.answer) || heavy_lists(most, with)
}

fn heavy_answer(most: u32, answer: &Option<Items<Term>>) -> bool
    requires limit { most ≤ 1000000 }
    ensures { result ≡ is_heavy_answer most answer.now }
{
    match answer {
        Some(terms) => heavy_terms(most, terms.as_slice()),
        None => false,
    }
}

fn heavy_lists(most: u32, lists: &[Items<Term>]) -> bool
    requires limit { most ≤ 1000000 }
    ensures { result ≡ list_any (are_heavy most) lists.now }
{
    let mut rest = lists;
    while let [list, behind @ ..] = rest {
        if heavy_terms(most, list.as_slice()) {
            return true;
        }
        rest = behind;
    }
    false
}

fn heavy_terms(most: u32, terms: &[Term]) -> bool
    requires limit { most ≤ 1000000 }
    ensures { result ≡ are_heavy most terms.now }
{
    let mut rest = terms;
    while let [term, behind @ ..] = rest {
        if weight_of_term(term, most) > most {
            return true;
        }
        rest = behind;
    }
    false
}

fn uncomputed(sig: &Signature, answer: &Option<Items<Term>>) -> bool
    ensures { result ≡ is_uncomputed sig.now answer.now }
{
    match answer {
        Some(terms) => some_abstract(sig, terms.as_slice()),
        None => false,
    }
}

#[cycle(abstracting)]
#[tactic(auto, using(crate::proofs::Abstracts::abstracts))]
fn some_abstract(sig: &Signature, terms: &[Term]) -> bool
    ensures { result ≡ list_any (has_abstract sig.now) terms.now }
{
    for term in terms {
        if holds_abstract(sig, term) {
            return true;
        }
    }
    false
}

// Whether some symbol of the term can't be computed by a program.
#[cycle(abstracting)]
#[tactic(auto, using(crate::proofs::Abstracts::abstracts))]
fn holds_abstract(sig: &Signature, term: &Term) -> bool
    ensures { result ≡ has_abstract sig.now term.now }
{
    match term {
        Term::Var { .. } => false,
        Term::In { .. } => false,
        Term::App { f, args } => match sig.symbols.get(f.0 as usize) {
            Some(symbol) => !symbol.computable() || some_abstract(sig, args.as_slice()),
            None => true,
        },
    }
}

fn open(alloc: Global, ctx: &Ctx, clause: &Clause) -> Result<bool, NoMemory>
    ensures { IfOk result (λ b. b ≡ is_open ctx.now.sig.now ctx.now.ins.now clause.now) }
{
    if clause.literals.len() != 0 || clause.answer.is_none() {
        return Ok(false);
    }
    Ok(close(alloc, ctx, clause)?.is_none())
}

fn first_subsumer(ctx: &Ctx, kept: &[(u32, Clause)], clause: &Clause) -> Option<u32>
    ensures { result ≡ subsumer ctx.now.sig.now ctx.now.ins.now kept.now clause.now }
{
    let mut rest = kept;
    while let [row, behind @ ..] = rest {
        if subsumes(ctx, &row.1, clause) {
            return Some(row.0);
        }
        rest = behind;
    }
    None
}
