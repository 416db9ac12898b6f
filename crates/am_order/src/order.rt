ghost use Rattle.std.specs.Prelude.{◌≡◌, ◌≤◌, length};
ghost use Rattle.am_order.specs.Order.{greater as is_greater};
ghost use Rattle.am_order.specs.Cases.{some_reaches, exceeds_all};
ghost use Rattle.am_order.specs.Parts.{common_front as is_common_front};

use crate::precedence::above;
use am_term::{Signature, Term, same};

/// Whether `s` is greater than `t` in the recursive path order with lexicographic status, under the
/// precedence of the signature: abstract symbols above computable ones above inputs, and within a
/// class the later declared above the earlier. A symbol that isn't declared counts as abstract. The
/// work is bounded by a polynomial of the sizes of both. Takes no memory.
#[cycle(order)]
#[tactic(auto, using(crate::proofs::Walks::quick_walks))]
pub fn greater(sig: &Signature, s: &Term, t: &Term) -> bool
    ensures { result ≡ is_greater sig.now s.now t.now }
{
    // Each call asks about `s` and arguments of `t`, about arguments of `s` and `t`, or about the first
    // arguments that differ and then about those behind them on one side. No two of the questions share
    // both a place of `s` and a place of `t`. So each place of the one meets each place of the other in
    // one call at most, and an argument is tested for sameness at most twice a call.
    match (s, t) {
        (Term::App { f, args }, Term::App { f: g, args: others }) => {
            let args = args.as_slice();
            let others = others.as_slice();
            if above(sig, *f, *g) {
                return exceeds(sig, s, others);
            }
            if f.0 != g.0 {
                return reaches(sig, args, t);
            }
            let i = common_front(args, others);
            if i == args.len() || i == others.len() {
                return reaches(sig, &args[i..], t);
            }
            if greater(sig, &args[i], &others[i]) {
                return exceeds(sig, s, &others[i + 1..]);
            }
            reaches(sig, &args[i + 1..], t)
        }
        (Term::App { args, .. }, Term::Var { .. }) => reaches(sig, args.as_slice(), t),
        (Term::App { .. }, Term::In { .. }) => true,
        (Term::In { k }, Term::In { k: j }) => *j < *k,
        (Term::In { .. }, Term::Var { .. }) => false,
        (Term::In { .. }, Term::App { .. }) => false,
        (Term::Var { .. }, Term::Var { .. }) => false,
        (Term::Var { .. }, Term::In { .. }) => false,
        (Term::Var { .. }, Term::App { .. }) => false,
    }
}

// Whether some term is `t` or greater than it.
#[cycle(order)]
#[tactic(auto, using(crate::proofs::Walks::quick_walks))]
fn reaches(sig: &Signature, terms: &[Term], t: &Term) -> bool
    ensures { result ≡ some_reaches sig.now terms.now t.now }
{
    for term in terms {
        if same(term, t) || greater(sig, term, t) {
            return true;
        }
    }
    false
}

// Whether `s` is greater than each of the terms.
#[cycle(order)]
#[tactic(auto, using(crate::proofs::Walks::quick_walks))]
fn exceeds(sig: &Signature, s: &Term, terms: &[Term]) -> bool
    ensures { result ≡ exceeds_all sig.now s.now terms.now }
{
    for term in terms {
        if !greater(sig, s, term) {
            return false;
        }
    }
    true
}

// How many terms the lists have in common from the front.
#[tactic(auto, using(crate::proofs::Walks::front_walks))]
fn common_front(terms: &[Term], others: &[Term]) -> usize
    ensures count { result ≡ is_common_front terms.now others.now }
    ensures left { result ≤ length terms.now }
    ensures right { result ≤ length others.now }
{
    let end = terms.len().min(others.len());
    for i in 0..end {
        if !same(&terms[i], &others[i]) {
            return i;
        }
    }
    end
}
