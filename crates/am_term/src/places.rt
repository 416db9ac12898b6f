ghost use Rattle.std.specs.Prelude.{◌≡◌, IfOk, option_copied};
ghost use Rattle.am_term.specs.Place.{place, replaced, member, args_of};

use crate::copying::{copies, copy};
use crate::name::NoMemory;
use crate::term::Term;
use std::alloc::Global;

/// The part of a term at a path, each step the number of an argument, from 1. None exactly where the
/// path leaves the term. Takes no memory.
#[tactic(auto, using(crate::proofs::Walks::places))]
pub fn at<'a>(term: &'a Term, path: &[u32]) -> Option<&'a Term>
    ensures { option_copied result ≡ place path.now term.now }
{
    let mut here = term;
    for step in path {
        here = argument(here, *step)?;
    }
    Some(here)
}

/// The term with `new` at a path in place of the part that stands there. None exactly where the path
/// leaves the term.
#[tactic(auto, using(crate::proofs::Walks::places))]
pub fn put_at(
    alloc: Global,
    term: &Term,
    path: &[u32],
    new: &Term,
) -> Result<Option<Term>, NoMemory>
    ensures { IfOk result (λ t. t ≡ replaced new.now path.now term.now) }
{
    let Some((step, rest)) = path.split_first() else {
        return Ok(Some(copy(alloc, new)?));
    };
    match term {
        Term::Var { .. } => Ok(None),
        Term::In { .. } => Ok(None),
        Term::App { f, args } => {
            if *step == 0 || *step as usize > args.len() {
                return Ok(None);
            }
            let i = *step as usize - 1;
            let Some(inner) = put_at(alloc, &args.as_slice()[i], rest, new)? else {
                return Ok(None);
            };
            let mut made = copies(alloc, args.as_slice())?;
            made.set(i, inner);
            Ok(Some(Term::App { f: *f, args: made }))
        }
    }
}

// The argument with a number, from 1.
#[tactic(auto, using(crate::proofs::Walks::places))]
fn argument(term: &Term, number: u32) -> Option<&Term>
    ensures { option_copied result ≡ member (args_of term.now) number }
{
    match term {
        Term::Var { .. } => None,
        Term::In { .. } => None,
        Term::App { args, .. } => {
            if number == 0 {
                return None;
            }
            args.get(number as usize - 1)
        }
    }
}
