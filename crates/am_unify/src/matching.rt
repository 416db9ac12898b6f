ghost use Rattle.std.specs.Prelude.{◌≡◌, ℕ, IfOk, map};
ghost use Rattle.am_term.specs.declared.id.SortId.{SortId};
ghost use Rattle.am_term.specs.Same.{is_in};
ghost use Rattle.am_term.specs.declared.term.Term.TheViews.{out-Term};
ghost use Rattle.am_unify.specs.Matching.{IsMatched, bind_held, held as is_held, match_all, matched};
ghost use Rattle.am_unify.specs.Unifier.{IsSortedUnder, bindings_answered};

use crate::applying::inserted;
use crate::substitution::Subst;
use am_term::{Ctx, NoMemory, SortId, Term, copy, fits, same, well_sorted};
use sqlite_items::Items;
use std::alloc::Global;

/// The one instance of the pattern that is the term, whose variables are constants here: where the
/// pattern is well sorted and its variables of one number have one sort, it binds exactly these to
/// terms whose sorts fit. None exactly where no instance is the term.
#[tactic(auto, using(crate::proofs::Matched::matches))]
pub fn matches(
    alloc: Global,
    ctx: &Ctx,
    pattern: &Term,
    term: &Term,
) -> Result<Option<Subst>, NoMemory>
    ensures { (sorts : ℕ → SortId) → IsSortedUnder ctx.now.sig.now ctx.now.ins.now sorts pattern.now
        → IfOk result (λ o. IsMatched ctx.now.sig.now ctx.now.ins.now sorts pattern.now term.now
        (bindings_answered o)) }
{
    match extended(alloc, ctx, pattern, term, Items::new(alloc))? {
        Some(found) => Ok(Some(Subst(found))),
        None => Ok(None),
    }
}

// What is bound once the pattern is matched too.
#[cycle(matching)]
#[tactic(auto, using(crate::proofs::Matched::extending))]
fn extended(
    alloc: Global,
    ctx: &Ctx,
    pattern: &Term,
    term: &Term,
    found: Items<(u32, Term)>,
) -> Result<Option<Items<(u32, Term)>>, NoMemory>
    ensures { IfOk result (λ o. o ≡ matched ctx.now.sig.now ctx.now.ins.now pattern.now term.now found) }
{
    match pattern {
        Term::Var { n, sort } => bound(alloc, ctx, *n, *sort, term, found),
        Term::In { k } => {
            if is_input(term, *k) {
                return Ok(Some(found));
            }
            Ok(None)
        }
        Term::App { f, args } => match term {
            Term::Var { .. } => Ok(None),
            Term::In { .. } => Ok(None),
            Term::App { f: g, args: others } => {
                if f.0 != g.0 {
                    return Ok(None);
                }
                if args.len() != others.len() {
                    return Ok(None);
                }
                extended_all(alloc, ctx, args.as_slice(), others.as_slice(), found)
            }
        },
    }
}

// What is bound once as many patterns as terms are matched too.
#[cycle(matching)]
#[tactic(auto, using(crate::proofs::Matched::extending))]
fn extended_all(
    alloc: Global,
    ctx: &Ctx,
    patterns: &[Term],
    terms: &[Term],
    found: Items<(u32, Term)>,
) -> Result<Option<Items<(u32, Term)>>, NoMemory>
    ensures { IfOk result (λ o. o ≡ match_all
        (map (matched ctx.now.sig.now ctx.now.ins.now) patterns.now) terms.now found) }
{
    if patterns.len() != terms.len() {
        return Ok(None);
    }
    let mut found = found;
    for i in 0..patterns.len() {
        match extended(alloc, ctx, &patterns[i], &terms[i], found)? {
            Some(more) => found = more,
            None => return Ok(None),
        }
    }
    Ok(Some(found))
}

// A variable that is bound has to meet its term again; another takes a term whose sort fits.
#[tactic(auto, using(crate::proofs::Matched::binding))]
fn bound(
    alloc: Global,
    ctx: &Ctx,
    n: u32,
    sort: SortId,
    term: &Term,
    found: Items<(u32, Term)>,
) -> Result<Option<Items<(u32, Term)>>, NoMemory>
    ensures { IfOk result (λ o. o ≡ bind_held ctx.now.sig.now ctx.now.ins.now n sort term.now found
        (is_held found n term.now)) }
{
    match held(found.as_slice(), n, term) {
        Some(true) => return Ok(Some(found)),
        Some(false) => return Ok(None),
        None => {}
    }
    let Some(own) = well_sorted(ctx, term) else {
        return Ok(None);
    };
    if !fits(ctx.sig, own, sort) {
        return Ok(None);
    }
    Ok(Some(inserted(alloc, found, n, copy(alloc, term)?)?))
}

// Whether a number is bound to this term, if it is bound.
#[tactic(auto, using(crate::proofs::Matched::holding))]
fn held(found: &[(u32, Term)], n: u32, term: &Term) -> Option<bool>
    ensures { result ≡ is_held found.now n term.now }
{
    for binding in found {
        if binding.0 == n {
            return Some(same(&binding.1, term));
        }
    }
    None
}

#[tactic(auto, using(crate::proofs::Matched::inputs))]
fn is_input(term: &Term, k: u32) -> bool
    ensures { result ≡ is_in k (out-Term term.now) }
{
    match term {
        Term::Var { .. } => false,
        Term::In { k: j } => k == *j,
        Term::App { .. } => false,
    }
}
