ghost use Rattle.std.specs.Prelude.{◌≡◌, ◌<◌, IfSome};
ghost use Rattle.am_term.specs.Sorts.{parent as parent_of, fits as is_fitting, root as root_of, akin as is_akin};
ghost use Rattle.am_term.specs.Sorting.{fit_places, sort_of, sorts_of};

use crate::id::SortId;
use crate::signature::{Ctx, Signature};
use crate::term::Term;

/// Whether sort `s` is `t`, or stands below it: whatever has sort `s` may stand where `t` is asked
/// for. Takes no memory.
#[tactic(auto, using(crate::proofs::Climbs::climbs))]
pub fn fits(sig: &Signature, s: SortId, t: SortId) -> bool
    ensures { result ≡ is_fitting sig.now s t }
{
    let mut here = s;
    loop {
        if here.0 == t.0 {
            return true;
        }
        match parent(sig, here) {
            Some(above) => here = above,
            None => return false,
        }
    }
}

/// Whether two sorts stand below one root. Takes no memory.
#[tactic(auto, unfolding(crate::specs::Sorts::akin, crate::specs::Sorts::akin_in, crate::specs::Sorts::root))]
pub fn akin(sig: &Signature, s: SortId, t: SortId) -> bool
    ensures { result ≡ is_akin sig.now s t }
{
    root(sig, s).0 == root(sig, t).0
}

/// The sort of a term. None exactly where an input's or a symbol's number or a variable's sort is out
/// of range, a relation stands as a term, a count of arguments differs, or an argument's sort doesn't
/// fit that of its place. Takes no memory.
#[cycle(sorting)]
#[tactic(auto, using(crate::proofs::Sorted::sorting))]
pub fn well_sorted(ctx: &Ctx, term: &Term) -> Option<SortId>
    ensures { result ≡ sort_of ctx.now.sig.now ctx.now.ins.now term.now }
{
    match term {
        Term::Var { sort, .. } => {
            if (sort.0 as usize) < ctx.sig.sorts.len() {
                Some(*sort)
            } else {
                None
            }
        }
        Term::In { k } => sqlite_items::at(ctx.ins, *k as usize).copied(),
        Term::App { f, args } => match ctx.sig.symbols.get(f.0 as usize) {
            Some(symbol) => {
                if fit(ctx, args.as_slice(), symbol.args.as_slice()) {
                    symbol.result
                } else {
                    None
                }
            }
            None => None,
        },
    }
}

// Whether there are as many terms as places, and the sort of each fits its place.
#[cycle(sorting)]
#[tactic(auto, using(crate::proofs::Sorted::sorting))]
fn fit(ctx: &Ctx, terms: &[Term], places: &[SortId]) -> bool
    ensures { result ≡ fit_places ctx.now.sig.now (sorts_of ctx.now.sig.now ctx.now.ins.now terms.now) places.now }
{
    if terms.len() != places.len() {
        return false;
    }
    for i in 0..terms.len() {
        match well_sorted(ctx, &terms[i]) {
            Some(sort) => {
                if !fits(ctx.sig, sort, places[i]) {
                    return false;
                }
            }
            None => return false,
        }
    }
    true
}

// The parent of a sort: a sort with a smaller number.
#[tactic(auto, using(crate::proofs::Climbs::climbs))]
fn parent(sig: &Signature, s: SortId) -> Option<SortId>
    ensures value { result ≡ parent_of sig.now s }
    ensures lower { IfSome result (λ p. p.0 < s.0) }
{
    match sig.parents.get(s.0 as usize) {
        Some(Some(above)) => { if above.0 < s.0 { Some(*above) } else { None } }
        Some(None) => None,
        None => None,
    }
}

#[tactic(auto, using(crate::proofs::Climbs::climbs))]
fn root(sig: &Signature, s: SortId) -> SortId
    ensures { result ≡ root_of sig.now s }
{
    let mut here = s;
    loop {
        match parent(sig, here) {
            Some(above) => here = above,
            None => return here,
        }
    }
}
