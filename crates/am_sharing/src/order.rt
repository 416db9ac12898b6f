ghost use Rattle.std.specs.Prelude.{◌≡◌, ◌<◌, ◌≤◌, length};
ghost use Rattle.am_order.specs.Order.{greater as is_greater};
ghost use Rattle.am_order.specs.Parts.{common_front as front_of};
ghost use Rattle.am_bank.specs.Bank.{IsBank};
ghost use Rattle.am_sharing.specs.Terms.{term_at, terms_at, some_reaches, exceeds_all};
ghost use Rattle.am_sharing.specs.Bound.{id_bound};

use crate::node::node_at;
use crate::precedence::above;
use am_bank::{Bank, Node, TermId};
use am_term::Signature;

// Whether the term of one id is greater than that of another, as `am_order` compares the terms.
#[cycle(order)]
#[tactic(auto, using(crate::proofs::Walks::walks))]
pub fn greater(sig: &Signature, bank: &Bank, s: TermId, t: TermId) -> bool
    requires left { s.0 < length bank.now }
    requires right { t.0 < length bank.now }
    ensures { result ≡ is_greater sig.now (term_at bank.now s.0) (term_at bank.now t.0) }
{
    match node_at(bank, s) {
        Node::App { f, args } => match node_at(bank, t) {
            Node::App { f: g, args: others } => {
                let args = args.as_slice();
                let others = others.as_slice();
                if above(sig, *f, *g) {
                    return exceeds(sig, bank, s, others);
                }
                if f.0 != g.0 {
                    return reaches(sig, bank, args, t);
                }
                let i = in_common(bank, args, others);
                if i == args.len() || i == others.len() {
                    return reaches(sig, bank, &args[i..], t);
                }
                if greater(sig, bank, args[i], others[i]) {
                    return exceeds(sig, bank, s, &others[i + 1..]);
                }
                reaches(sig, bank, &args[i + 1..], t)
            }
            Node::Var { .. } => reaches(sig, bank, args.as_slice(), t),
            Node::In { .. } => true,
        },
        Node::In { k } => match node_at(bank, t) {
            Node::In { k: j } => *j < *k,
            Node::Var { .. } => false,
            Node::App { .. } => false,
        },
        Node::Var { .. } => false,
    }
}

// Whether some term is that of `t` or greater than it.
#[cycle(order)]
#[tactic(auto, using(crate::proofs::Walks::walks))]
fn reaches(sig: &Signature, bank: &Bank, terms: &[TermId], t: TermId) -> bool
    requires bank { IsBank bank.now }
    requires left { id_bound terms.now ≤ length bank.now }
    requires right { t.0 < length bank.now }
    ensures { result ≡ some_reaches sig.now bank.now terms.now t.0 }
{
    for term in terms {
        if *term == t || greater(sig, bank, *term, t) {
            return true;
        }
    }
    false
}

// Whether the term of `s` is greater than each of the terms.
#[cycle(order)]
#[tactic(auto, using(crate::proofs::Walks::walks))]
fn exceeds(sig: &Signature, bank: &Bank, s: TermId, terms: &[TermId]) -> bool
    requires left { s.0 < length bank.now }
    requires right { id_bound terms.now ≤ length bank.now }
    ensures { result ≡ exceeds_all sig.now bank.now s.0 terms.now }
{
    for term in terms {
        if !greater(sig, bank, s, *term) {
            return false;
        }
    }
    true
}

// How many terms the lists have in common from the front.
#[tactic(auto, using(crate::proofs::Walks::front_walks))]
fn in_common(bank: &Bank, terms: &[TermId], others: &[TermId]) -> usize
    requires bank { IsBank bank.now }
    requires terms_of { id_bound terms.now ≤ length bank.now }
    requires others_of { id_bound others.now ≤ length bank.now }
    ensures count { result ≡ front_of (terms_at bank.now terms.now) (terms_at bank.now others.now) }
    ensures left { result ≤ length terms.now }
    ensures right { result ≤ length others.now }
{
    let end = terms.len().min(others.len());
    for i in 0..end {
        if terms[i] != others[i] {
            return i;
        }
    }
    end
}
