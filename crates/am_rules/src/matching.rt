ghost use Rattle.std.specs.Prelude.{◌≡◌, [], IfOk, map};
ghost use Rattle.am_term.specs.Same.{is_in};
ghost use Rattle.am_term.specs.declared.term.Term.TheViews.{out-Term};
ghost use Rattle.am_unify.specs.Matching.{bind_held, held as is_held, match_all, matched};
ghost use Rattle.am_unify.specs.Opening.{starts_below};
ghost use Rattle.am_unify.specs.Substitution.{insert_binding};

use am_term::{Ctx, NoMemory, SortId, Term, copy, fits, same, well_sorted};
use sqlite_items::Items;
use std::alloc::Global;

/// The bindings that make the pattern the term, whose own variables are constants here. Asks nothing of the two.
pub fn match_terms(
    alloc: Global,
    ctx: &Ctx,
    pattern: &Term,
    term: &Term,
) -> Result<Option<Items<(u32, Term)>>, NoMemory>
    ensures { IfOk result (λ o. o ≡ matched ctx.now.sig.now ctx.now.ins.now pattern.now term.now []) }
{
    extended(alloc, ctx, pattern, term, Items::new(alloc))
}

// What is bound once the pattern is matched too.
#[cycle(matching)]
#[tactic(auto, using(am_unify::proofs::Matched::extending))]
fn extended(
    alloc: Global,
    ctx: &Ctx,
    pattern: &Term,
    term: &Term,
    found: Items<(u32, Term)>,
) -> Result<Option<Items<(u32, Term)>>, NoMemory>
    ensures { IfOk result (λ o. o ≡ matched ctx.now.sig.now ctx.now.ins.now pattern.now term.now found) }
{
    match pattern {
        Term::Var { n, sort } => bound(alloc, ctx, *n, *sort, term, found),
        Term::In { k } => {
            if is_input(term, *k) {
                return Ok(Some(found));
            }
            Ok(None)
        }
        Term::App { f, args } => match term {
            Term::Var { .. } => Ok(None),
            Term::In { .. } => Ok(None),
            Term::App { f: g, args: others } => {
                if f.0 != g.0 {
                    return Ok(None);
                }
                if args.len() != others.len() {
                    return Ok(None);
                }
                extended_all(alloc, ctx, args.as_slice(), others.as_slice(), found)
            }
        },
    }
}

// What is bound once as many patterns as terms are matched too.
#[cycle(matching)]
#[tactic(auto, using(am_unify::proofs::Matched::extending))]
fn extended_all(
    alloc: Global,
    ctx: &Ctx,
    patterns: &[Term],
    terms: &[Term],
    found: Items<(u32, Term)>,
) -> Result<Option<Items<(u32, Term)>>, NoMemory>
    ensures { IfOk result (λ o. o ≡ match_all
        (map (matched ctx.now.sig.now ctx.now.ins.now) patterns.now) terms.now found) }
{
    if patterns.len() != terms.len() {
        return Ok(None);
    }
    let mut found = found;
    for i in 0..patterns.len() {
        match extended(alloc, ctx, &patterns[i], &terms[i], found)? {
            Some(more) => found = more,
            None => return Ok(None),
        }
    }
    Ok(Some(found))
}

// A variable that is bound has to meet its term again; another takes a term whose sort fits.
#[tactic(auto, using(am_unify::proofs::Matched::binding))]
fn bound(
    alloc: Global,
    ctx: &Ctx,
    n: u32,
    sort: SortId,
    term: &Term,
    found: Items<(u32, Term)>,
) -> Result<Option<Items<(u32, Term)>>, NoMemory>
    ensures { IfOk result (λ o. o ≡ bind_held ctx.now.sig.now ctx.now.ins.now n sort term.now found
        (is_held found n term.now)) }
{
    match held(found.as_slice(), n, term) {
        Some(true) => return Ok(Some(found)),
        Some(false) => return Ok(None),
        None => {}
    }
    let Some(own) = well_sorted(ctx, term) else {
        return Ok(None);
    };
    if !fits(ctx.sig, own, sort) {
        return Ok(None);
    }
    Ok(Some(inserted(alloc, found, n, copy(alloc, term)?)?))
}

// Whether a number is bound to this term, if it is bound.
#[tactic(auto, using(am_unify::proofs::Matched::holding))]
fn held(found: &[(u32, Term)], n: u32, term: &Term) -> Option<bool>
    ensures { result ≡ is_held found.now n term.now }
{
    for binding in found {
        if binding.0 == n {
            return Some(same(&binding.1, term));
        }
    }
    None
}

#[tactic(auto, using(am_unify::proofs::Matched::inputs))]
fn is_input(term: &Term, k: u32) -> bool
    ensures { result ≡ is_in k (out-Term term.now) }
{
    match term {
        Term::Var { .. } => false,
        Term::In { k: j } => k == *j,
        Term::App { .. } => false,
    }
}

fn first_below(found: &[(u32, Term)], n: u32) -> bool
    ensures { result ≡ starts_below found.now n }
{
    let [first, ..] = found else {
        return false;
    };
    first.0 < n
}

// One more binding, in order of the numbers.
#[tactic(auto, using(am_unify::proofs::Walks::inserting))]
fn inserted(
    alloc: Global,
    found: Items<(u32, Term)>,
    n: u32,
    term: Term,
) -> Result<Items<(u32, Term)>, NoMemory>
    ensures { IfOk result (λ bs. bs ≡ insert_binding n term found) }
{
    let mut made = Items::new(alloc);
    let mut rest = found;
    'below: while first_below(rest.as_slice(), n) {
        made.push(rest.remove(0))?;
    }
    made.push((n, term))?;
    made.append(rest)?;
    Ok(made)
}
