ghost use Rattle.std.specs.Prelude.{◌≡◌, ◌≤◌, ◌↔◌, IsTrue, IfOk, length};
ghost use Rattle.am_term.specs.Span.{span};
ghost use Rattle.am_term.specs.Instance.{instance};

use crate::copying::copy;
use crate::name::NoMemory;
use crate::term::Term;
use sqlite_items::Items;
use std::alloc::Global;

/// The instance of a term: variable n replaced by the n-th member of the list, from 0.
#[tactic(auto, using(crate::proofs::Walks::substitutions))]
pub fn subst(alloc: Global, term: &Term, with: &[Term]) -> Result<Term, NoMemory>
    requires covered { span term.now ≤ length with.now }
    ensures { IfOk result (λ t. t ≡ instance with.now term.now) }
{
    match term {
        Term::Var { n, .. } => copy(alloc, &with[*n as usize]),
        Term::In { k } => Ok(Term::In { k: *k }),
        Term::App { f, args } => {
            let mut made = Items::new(alloc);
            for arg in args.as_slice() {
                made.push(subst(alloc, arg, with)?)?;
            }
            Ok(Term::App { f: *f, args: made })
        }
    }
}

/// Whether a list of so many terms has one for each variable of the term: the number of each is
/// below the count. Takes no memory.
#[tactic(auto, using(crate::proofs::Walks::substitutions))]
pub fn is_covered(term: &Term, count: usize) -> bool
    ensures { IsTrue result ↔ (span term.now ≤ count) }
{
    match term {
        Term::Var { n, .. } => (*n as usize) < count,
        Term::In { .. } => true,
        Term::App { args, .. } => {
            for arg in args.as_slice() {
                if !is_covered(arg, count) {
                    return false;
                }
            }
            true
        }
    }
}
