ghost use Rattle.std.specs.Prelude.{◌≡◌};
ghost use Rattle.std.specs.List.{list_any};
ghost use Rattle.am_clause.specs.Tautology.{opposite, equal_sides, is_identity, has_opposites as has_opposite_literals, tautology};

use crate::clause::Clause;
use am_term::{Atom, Literal, same, same_atom};

/// Whether some literal stands with both signs, or some positive equation has equal sides. Takes no
/// memory.
pub fn is_tautology(clause: &Clause) -> bool
    ensures { result ≡ tautology clause.now }
{
    has_opposites(clause.literals.as_slice()) || has_identity(clause.literals.as_slice())
}

#[tactic(auto, using(crate::proofs::Opposites::searching))]
fn has_opposites(literals: &[Literal]) -> bool
    ensures { result ≡ has_opposite_literals literals.now }
{
    for literal in literals {
        if has_opposite(literals, literal) {
            return true;
        }
    }
    false
}

#[tactic(auto, using(crate::proofs::Opposites::searching))]
fn has_opposite(literals: &[Literal], literal: &Literal) -> bool
    ensures { result ≡ list_any (opposite literal.now) literals.now }
{
    for other in literals {
        if are_opposite(literal, other) {
            return true;
        }
    }
    false
}

#[tactic(auto, unfolding(crate::specs::Tautology::opposite))]
fn are_opposite(literal: &Literal, other: &Literal) -> bool
    ensures { result ≡ opposite literal.now other.now }
{
    literal.positive != other.positive && same_atom(&literal.atom, &other.atom)
}

#[tactic(auto, using(crate::proofs::Opposites::searching))]
fn has_identity(literals: &[Literal]) -> bool
    ensures { result ≡ list_any is_identity literals.now }
{
    for literal in literals {
        if identity(literal) {
            return true;
        }
    }
    false
}

#[tactic(auto, unfolding(crate::specs::Tautology::is_identity))]
fn identity(literal: &Literal) -> bool
    ensures { result ≡ is_identity literal.now }
{
    literal.positive && sides_equal(&literal.atom)
}

fn sides_equal(atom: &Atom) -> bool
    ensures { result ≡ equal_sides atom.now }
{
    match atom {
        Atom::Rel { .. } => false,
        Atom::Eq { left, right } => same(left, right),
    }
}
