ghost use Rattle.std.specs.Prelude.{◌≡◌};
ghost use Rattle.am_order.specs.Order.{greater as is_greater};
ghost use Rattle.am_order.specs.Cases.{some_reaches, exceeds_all, first_greater};

use crate::precedence::above;
use am_term::{Signature, Term, same};

/// Whether `s` is greater than `t`, straight by the four cases: its work can be exponential in the
/// depth of the terms, and it is there to compare `greater` with. Takes no memory.
#[cycle(plain)]
#[tactic(auto, using(crate::proofs::Walks::walks))]
pub fn greater_plain(sig: &Signature, s: &Term, t: &Term) -> bool
    ensures { result ≡ is_greater sig.now s.now t.now }
{
    match (s, t) {
        (Term::App { f, args }, Term::App { f: g, args: others }) => {
            if reaches(sig, args.as_slice(), t) {
                return true;
            }
            if !exceeds(sig, s, others.as_slice()) {
                return false;
            }
            if above(sig, *f, *g) {
                return true;
            }
            f.0 == g.0 && first(sig, args.as_slice(), others.as_slice())
        }
        (Term::App { args, .. }, Term::Var { .. }) => reaches(sig, args.as_slice(), t),
        (Term::App { .. }, Term::In { .. }) => true,
        (Term::In { k }, Term::In { k: j }) => *j < *k,
        (Term::In { .. }, Term::Var { .. }) => false,
        (Term::In { .. }, Term::App { .. }) => false,
        (Term::Var { .. }, Term::Var { .. }) => false,
        (Term::Var { .. }, Term::In { .. }) => false,
        (Term::Var { .. }, Term::App { .. }) => false,
    }
}

// Whether some term is `t` or greater than it.
#[cycle(plain)]
#[tactic(auto, using(crate::proofs::Walks::walks))]
fn reaches(sig: &Signature, terms: &[Term], t: &Term) -> bool
    ensures { result ≡ some_reaches sig.now terms.now t.now }
{
    for term in terms {
        if same(term, t) || greater_plain(sig, term, t) {
            return true;
        }
    }
    false
}

// Whether `s` is greater than each of the terms.
#[cycle(plain)]
#[tactic(auto, using(crate::proofs::Walks::walks))]
fn exceeds(sig: &Signature, s: &Term, terms: &[Term]) -> bool
    ensures { result ≡ exceeds_all sig.now s.now terms.now }
{
    for term in terms {
        if !greater_plain(sig, s, term) {
            return false;
        }
    }
    true
}

// Whether the term at the first place where the lists differ is greater in the first list.
#[cycle(plain)]
#[tactic(auto, using(crate::proofs::Walks::walks))]
fn first(sig: &Signature, terms: &[Term], others: &[Term]) -> bool
    ensures { result ≡ first_greater sig.now terms.now others.now }
{
    for i in 0..terms.len().min(others.len()) {
        if !same(&terms[i], &others[i]) {
            return greater_plain(sig, &terms[i], &others[i]);
        }
    }
    false
}
