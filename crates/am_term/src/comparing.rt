ghost use Rattle.std.specs.Prelude.{◌≡◌, ◌↔◌, IsTrue};
ghost use Rattle.am_term.specs.Same.{same_term, same_terms as are_same_terms, same_atom as is_same_atom, same_literal as is_same_literal, is_var, is_in};
ghost use Rattle.am_term.specs.declared.term.Term.TheViews.{out-Term};

use crate::id::SortId;
use crate::term::{Atom, Literal, Term};

/// Whether two terms are one. Takes no memory.
#[cycle(comparing)]
#[tactic(auto, using(crate::proofs::Walks::comparisons))]
pub fn same(a: &Term, b: &Term) -> bool
    ensures test { result ≡ same_term a.now b.now }
    ensures equal { IsTrue result ↔ (a.now ≡ b.now) }
{
    match a {
        Term::Var { n, sort } => is_var(*n, *sort, b),
        Term::In { k } => is_in(*k, b),
        Term::App { f, args } => match b {
            Term::App { f: g, args: others } => {
                f.0 == g.0 && same_terms(args.as_slice(), others.as_slice())
            }
            Term::Var { .. } => false,
            Term::In { .. } => false,
        },
    }
}

// Whether the term is the variable of this number and sort.
#[tactic(auto, using(crate::proofs::Walks::walks))]
fn is_var(n: u32, sort: SortId, term: &Term) -> bool
    ensures { result ≡ is_var n sort (out-Term term.now) }
{
    match term {
        Term::Var { n: m, sort: other } => n == *m && sort.0 == other.0,
        Term::In { .. } => false,
        Term::App { .. } => false,
    }
}

// Whether the term is the input of this number.
#[tactic(auto, using(crate::proofs::Walks::walks))]
fn is_in(k: u32, term: &Term) -> bool
    ensures { result ≡ is_in k (out-Term term.now) }
{
    match term {
        Term::Var { .. } => false,
        Term::In { k: j } => k == *j,
        Term::App { .. } => false,
    }
}

/// Whether two lists of terms are one. Takes no memory.
#[cycle(comparing)]
#[tactic(auto, using(crate::proofs::Walks::comparisons))]
pub fn same_terms(a: &[Term], b: &[Term]) -> bool
    ensures test { result ≡ are_same_terms a.now b.now }
    ensures equal { IsTrue result ↔ (a.now ≡ b.now) }
{
    if a.len() != b.len() {
        return false;
    }
    for i in 0..a.len() {
        if !same(&a[i], &b[i]) {
            return false;
        }
    }
    true
}

/// Whether two atoms are one. Takes no memory.
#[tactic(auto, using(crate::proofs::Walks::comparisons))]
pub fn same_atom(a: &Atom, b: &Atom) -> bool
    ensures test { result ≡ is_same_atom a.now b.now }
    ensures equal { IsTrue result ↔ (a.now ≡ b.now) }
{
    match (a, b) {
        (Atom::Rel { r, args }, Atom::Rel { r: q, args: others }) => {
            r.0 == q.0 && same_terms(args.as_slice(), others.as_slice())
        }
        (
            Atom::Eq { left, right },
            Atom::Eq {
                left: first,
                right: second,
            },
        ) => { same(left, first) && same(right, second) }
        (Atom::Rel { .. }, Atom::Eq { .. }) => false,
        (Atom::Eq { .. }, Atom::Rel { .. }) => false,
    }
}

/// Whether two literals are one. Takes no memory.
#[tactic(auto, using(crate::proofs::Walks::comparisons))]
pub fn same_literal(a: &Literal, b: &Literal) -> bool
    ensures test { result ≡ is_same_literal a.now b.now }
    ensures equal { IsTrue result ↔ (a.now ≡ b.now) }
{
    a.positive == b.positive && same_atom(&a.atom, &b.atom)
}
