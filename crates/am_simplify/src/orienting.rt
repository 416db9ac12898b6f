ghost use Rattle.std.specs.Prelude.{◌≡◌};
ghost use Rattle.am_simplify.specs.Units.{greater_side as is_greater_side, side_of_literals as is_side_of, unit_side as is_unit_side};

use am_clause::{Clause, Side};
use am_order::{Oriented, orient};
use am_term::{Atom, Literal, Signature};

/// The side from which a clause rewrites, if it does. Takes no memory.
pub fn unit_side(sig: &Signature, clause: &Clause) -> Option<Side>
    ensures { result ≡ is_unit_side sig.now clause.now }
{
    if clause.answer.is_some() {
        return None;
    }
    side_of_literals(sig, clause.literals.as_slice())
}

fn side_of_literals(sig: &Signature, literals: &[Literal]) -> Option<Side>
    ensures { result ≡ is_side_of sig.now literals.now }
{
    match literals {
        [] => None,
        [literal] => {
            if !literal.positive {
                return None;
            }
            greater_side(sig, &literal.atom)
        }
        [_, _, ..] => None,
    }
}

fn greater_side(sig: &Signature, atom: &Atom) -> Option<Side>
    ensures { result ≡ is_greater_side sig.now atom.now }
{
    match atom {
        Atom::Rel { .. } => None,
        Atom::Eq { left, right } => match orient(sig, left, right) {
            Oriented::Left => Some(Side::Left),
            Oriented::Right => Some(Side::Right),
            Oriented::Neither => None,
        },
    }
}
