ghost use Rattle.std.specs.Prelude.{◌≡◌, IfOk};

use crate::name::NoMemory;
use crate::term::{Atom, Literal, Term};
use sqlite_items::Items;
use std::alloc::Global;

/// A copy of a term.
#[cycle(copying)]
#[tactic(auto, using(crate::proofs::Walks::walks))]
pub fn copy(alloc: Global, term: &Term) -> Result<Term, NoMemory>
    ensures { IfOk result (λ t. t ≡ term.now) }
{
    match term {
        Term::Var { n, sort } => Ok(Term::Var { n: *n, sort: *sort }),
        Term::In { k } => Ok(Term::In { k: *k }),
        Term::App { f, args } => {
            let args = copies(alloc, args.as_slice())?;
            Ok(Term::App { f: *f, args })
        }
    }
}

/// A copy of a list of terms.
#[cycle(copying)]
#[tactic(auto, using(crate::proofs::Walks::walks))]
pub fn copies(alloc: Global, terms: &[Term]) -> Result<Items<Term>, NoMemory>
    ensures { IfOk result (λ ts. ts ≡ terms.now) }
{
    let mut made = Items::new(alloc);
    for term in terms {
        made.push(copy(alloc, term)?)?;
    }
    Ok(made)
}

/// A copy of an atom.
#[tactic(auto, using(crate::proofs::Walks::walks))]
pub fn copy_atom(alloc: Global, atom: &Atom) -> Result<Atom, NoMemory>
    ensures { IfOk result (λ a. a ≡ atom.now) }
{
    match atom {
        Atom::Rel { r, args } => {
            let args = copies(alloc, args.as_slice())?;
            Ok(Atom::Rel { r: *r, args })
        }
        Atom::Eq { left, right } => {
            let left = copy(alloc, left)?;
            let right = copy(alloc, right)?;
            Ok(Atom::Eq { left, right })
        }
    }
}

/// A copy of a literal.
#[tactic(auto, using(crate::proofs::Walks::walks))]
pub fn copy_literal(alloc: Global, literal: &Literal) -> Result<Literal, NoMemory>
    ensures { IfOk result (λ l. l ≡ literal.now) }
{
    let atom = copy_atom(alloc, &literal.atom)?;
    Ok(Literal {
        positive: literal.positive,
        atom,
    })
}
