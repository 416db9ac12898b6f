ghost use Rattle.std.specs.Prelude.{◌≡◌, IfOk};
ghost use Rattle.am_term.specs.Parts.{with_part as atom_with_part, replaced_in, replaced_literal};

use crate::rules::part;
use am_term::{Atom, Literal, NoMemory, Term, copies, copy, copy_atom, put_at};
use std::alloc::Global;

// The atom with another argument or side.
#[tactic(auto, using(crate::proofs::Ruling::replacing))]
fn with_part(alloc: Global, atom: &Atom, number: u32, new: Term) -> Result<Atom, NoMemory>
    ensures { IfOk result (λ a. a ≡ atom_with_part atom.now number new) }
{
    match atom {
        Atom::Rel { r, args } => {
            let mut made = copies(alloc, args.as_slice())?;
            if number != 0 && number as usize <= made.len() {
                made.set(number as usize - 1, new);
            }
            Ok(Atom::Rel { r: *r, args: made })
        }
        Atom::Eq { left, right } => {
            if number == 0 {
                return copy_atom(alloc, atom);
            }
            if number == 1 {
                let right = copy(alloc, right)?;
                return Ok(Atom::Eq { left: new, right });
            }
            let left = copy(alloc, left)?;
            Ok(Atom::Eq { left, right: new })
        }
    }
}

#[tactic(auto, using(crate::proofs::Ruling::replacing))]
fn put_atom(alloc: Global, atom: &Atom, path: &[u32], new: &Term) -> Result<Option<Atom>, NoMemory>
    ensures { IfOk result (λ o. o ≡ replaced_in new.now path.now atom.now) }
{
    match path {
        [] => Ok(None),
        [number, below @ ..] => {
            let Some(term) = part(atom, *number) else {
                return Ok(None);
            };
            let Some(made) = put_at(alloc, term, below, new)? else {
                return Ok(None);
            };
            Ok(Some(with_part(alloc, atom, *number, made)?))
        }
    }
}

/// The literal with another part at a path, or as it is where it has none there.
#[tactic(auto, using(crate::proofs::Ruling::replacing))]
pub fn put_in(
    alloc: Global,
    literal: &Literal,
    path: &[u32],
    new: &Term,
) -> Result<Literal, NoMemory>
    ensures { IfOk result (λ l. l ≡ replaced_literal new.now path.now literal.now) }
{
    let atom = match put_atom(alloc, &literal.atom, path, new)? {
        Some(atom) => atom,
        None => copy_atom(alloc, &literal.atom)?,
    };
    Ok(Literal {
        positive: literal.positive,
        atom,
    })
}
