ghost use Rattle.std.specs.Prelude.{◌≡◌, option_copied};
ghost use Rattle.am_term.specs.Place.{member};
ghost use Rattle.am_term.specs.Parts.{without as without_member, parts_of, place_in};
ghost use Rattle.am_clause.specs.Rules.{have_one_sign, is_equation, is_equation_of, are_opposite, have_one_atom, equates_sides, turned, side_at, part_at, has_place, are_one, go_together};

use am_clause::Side;
use am_term::{Atom, Literal, Term, at, same, same_atom, same_terms};
use sqlite_items::Items;

/// The literal with a number, from 1.
#[tactic(auto, using(crate::proofs::Ruling::ruling))]
pub fn literal_at(literals: &[Literal], number: u32) -> Option<&Literal>
    ensures { option_copied result ≡ member literals.now number }
{
    if number == 0 {
        return None;
    }
    sqlite_items::at(literals, number as usize - 1)
}

/// Whether both literals are there and have one sign.
#[tactic(auto, using(crate::proofs::Ruling::ruling))]
pub fn one_sign(first: Option<&Literal>, second: Option<&Literal>) -> bool
    ensures { result ≡ have_one_sign (option_copied first.entry) (option_copied second.entry) }
{
    let Some(first) = first else {
        return false;
    };
    let Some(second) = second else {
        return false;
    };
    first.positive == second.positive
}

#[tactic(auto, using(crate::proofs::Ruling::ruling))]
fn equation(atom: &Atom) -> bool
    ensures { result ≡ is_equation atom.now }
{
    match atom {
        Atom::Rel { .. } => false,
        Atom::Eq { .. } => true,
    }
}

/// Whether the literal is there and is an equation of this sign.
#[tactic(auto, using(crate::proofs::Ruling::ruling))]
pub fn equation_of(sign: bool, literal: Option<&Literal>) -> bool
    ensures { result ≡ is_equation_of sign (option_copied literal.entry) }
{
    match literal {
        Some(literal) => literal.positive == sign && equation(&literal.atom),
        None => false,
    }
}

/// Whether both literals are there, are no equations and have opposite signs.
#[tactic(auto, using(crate::proofs::Ruling::ruling))]
pub fn opposite(first: Option<&Literal>, second: Option<&Literal>) -> bool
    ensures { result ≡ are_opposite (option_copied first.entry) (option_copied second.entry) }
{
    let Some(first) = first else {
        return false;
    };
    let Some(second) = second else {
        return false;
    };
    !equation(&first.atom) && (!equation(&second.atom) && first.positive == !second.positive)
}

/// Whether both literals are there and have one atom.
#[tactic(auto, using(crate::proofs::Ruling::ruling))]
pub fn one_atom(first: Option<&Literal>, second: Option<&Literal>) -> bool
    ensures { result ≡ have_one_atom (option_copied first.entry) (option_copied second.entry) }
{
    let Some(first) = first else {
        return false;
    };
    let Some(second) = second else {
        return false;
    };
    same_atom(&first.atom, &second.atom)
}

/// Whether the literal is there and is an equation of equal sides.
#[tactic(auto, using(crate::proofs::Ruling::ruling))]
pub fn equal_sides(literal: Option<&Literal>) -> bool
    ensures { result ≡ equates_sides (option_copied literal.entry) }
{
    let Some(literal) = literal else {
        return false;
    };
    match &literal.atom {
        Atom::Rel { .. } => false,
        Atom::Eq { left, right } => same(left, right),
    }
}

/// The argument or side with a number, from 1.
#[tactic(auto, using(crate::proofs::Ruling::ruling))]
pub fn part(atom: &Atom, number: u32) -> Option<&Term>
    ensures { option_copied result ≡ member (parts_of atom.now) number }
{
    match atom {
        Atom::Rel { args, .. } => {
            if number == 0 {
                return None;
            }
            args.get(number as usize - 1)
        }
        Atom::Eq { left, right } => {
            if number == 1 {
                return Some(left);
            }
            if number == 2 {
                return Some(right);
            }
            None
        }
    }
}

/// The part of an atom at a path.
#[tactic(auto, using(crate::proofs::Ruling::ruling))]
pub fn part_in<'a>(atom: &'a Atom, path: &[u32]) -> Option<&'a Term>
    ensures { option_copied result ≡ place_in path.now atom.now }
{
    match path {
        [] => None,
        [number, below @ ..] => match part(atom, *number) {
            Some(term) => at(term, below),
            None => None,
        },
    }
}

/// The literals without the one of a number, from 1.
#[tactic(auto, using(crate::proofs::Ruling::ruling))]
pub fn without(literals: Items<Literal>, number: u32) -> Items<Literal>
    ensures { result ≡ without_member literals number }
{
    let mut left = literals;
    if number == 0 {
        return left;
    }
    if number as usize > left.len() {
        return left;
    }
    let _gone = left.remove(number as usize - 1);
    left
}

/// That side of an equation.
#[tactic(auto, using(crate::proofs::Ruling::ruling))]
pub fn side_in<'a>(side: Side, literal: Option<&'a Literal>) -> Option<&'a Term>
    ensures { option_copied result ≡ side_at side (option_copied literal.entry) }
{
    let Some(literal) = literal else {
        return None;
    };
    match &literal.atom {
        Atom::Rel { .. } => None,
        Atom::Eq { left, right } => match side {
            Side::Left => Some(left),
            Side::Right => Some(right),
        },
    }
}

/// The other side.
#[tactic(auto, using(crate::proofs::Ruling::ruling))]
pub fn turn(side: Side) -> Side
    ensures { result ≡ turned side }
{
    match side {
        Side::Left => Side::Right,
        Side::Right => Side::Left,
    }
}

/// The part of a literal at a path.
#[tactic(auto, using(crate::proofs::Ruling::ruling))]
pub fn part_of<'a>(literal: Option<&'a Literal>, path: &[u32]) -> Option<&'a Term>
    ensures { option_copied result ≡ part_at path.now (option_copied literal.entry) }
{
    match literal {
        Some(literal) => part_in(&literal.atom, path),
        None => None,
    }
}

/// Whether the literal is there and has a part at the path.
#[tactic(auto, using(crate::proofs::Ruling::ruling))]
pub fn places(literal: Option<&Literal>, path: &[u32]) -> bool
    ensures { result ≡ has_place path.now (option_copied literal.entry) }
{
    match literal {
        Some(literal) => part_in(&literal.atom, path).is_some(),
        None => false,
    }
}

/// Whether both terms are there and are one.
#[tactic(auto, using(crate::proofs::Ruling::ruling))]
pub fn one_term(first: Option<&Term>, second: Option<&Term>) -> bool
    ensures { result ≡ are_one (option_copied first.entry) (option_copied second.entry) }
{
    let Some(first) = first else {
        return false;
    };
    let Some(second) = second else {
        return false;
    };
    same(first, second)
}

/// Whether two answers, where both are there, are one.
#[tactic(auto, using(crate::proofs::Ruling::ruling))]
pub fn answers_go(first: &Option<Items<Term>>, second: &Option<Items<Term>>) -> bool
    ensures { result ≡ go_together first.now second.now }
{
    let Some(first) = first else {
        return true;
    };
    let Some(second) = second else {
        return true;
    };
    same_terms(first.as_slice(), second.as_slice())
}
