ghost use Rattle.std.specs.Prelude.{◌≡◌, option_copied};
ghost use Rattle.am_clause.specs.Rules.{have_one_sign, is_equation as names_equation, is_equation_of as names_equation_of, are_opposite as have_opposite_signs, has_place as names_place, factor as factor_rule, reflex as reflex_rule, resolve as resolve_rule, para as para_rule, rewrite as rewrite_rule};

use crate::instancing::literal_at;
use crate::replacing::part_of;
use am_clause::{Clause, Side};
use am_term::{Atom, Literal};

/// Whether literals i and j are there and have one sign.
pub fn suits_factor(p: &Clause, i: u32, j: u32) -> bool
    ensures { result ≡ (factor_rule i j).suits p.now }
{
    is_one_sign(
        literal_at(p.literals.as_slice(), i),
        literal_at(p.literals.as_slice(), j),
    )
}

/// Whether literal i is there and is a negative equation.
pub fn suits_reflex(p: &Clause, i: u32) -> bool
    ensures { result ≡ (reflex_rule i).suits p.now }
{
    is_equation_of(false, literal_at(p.literals.as_slice(), i))
}

/// Whether literals i of p and j of q are there, are no equations and have opposite signs.
pub fn suits_resolve(p: &Clause, i: u32, q: &Clause, j: u32) -> bool
    ensures { result ≡ (resolve_rule i j).suits p.now q.now }
{
    are_opposite(
        literal_at(p.literals.as_slice(), i),
        literal_at(q.literals.as_slice(), j),
    )
}

/// Whether literal j of p is a positive equation and literal i of q has a part at the path.
pub fn suits_para(p: &Clause, j: u32, side: Side, q: &Clause, i: u32, path: &[u32]) -> bool
    ensures { result ≡ (para_rule j side i path.now).suits p.now q.now }
{
    is_equation_of(true, literal_at(p.literals.as_slice(), j))
        && has_place(literal_at(q.literals.as_slice(), i), path)
}

/// Whether p has one literal, which is a positive equation, and no answer, and literal i of q has a part at the path.
pub fn suits_rewrite(p: &Clause, side: Side, q: &Clause, i: u32, path: &[u32]) -> bool
    ensures { result ≡ (rewrite_rule 1 side i path.now).suits p.now q.now }
{
    p.literals.len() == 1 && (p.answer.is_none() && suits_para(p, 1, side, q, i, path))
}

#[tactic(auto, using(crate::proofs::Walks::ruling))]
fn is_one_sign(first: Option<&Literal>, second: Option<&Literal>) -> bool
    ensures { result ≡ have_one_sign (option_copied first.entry) (option_copied second.entry) }
{
    let Some(first) = first else {
        return false;
    };
    let Some(second) = second else {
        return false;
    };
    first.positive == second.positive
}

fn is_equation(atom: &Atom) -> bool
    ensures { result ≡ names_equation atom.now }
{
    match atom {
        Atom::Rel { .. } => false,
        Atom::Eq { .. } => true,
    }
}

#[tactic(auto, using(crate::proofs::Walks::ruling))]
fn is_equation_of(sign: bool, literal: Option<&Literal>) -> bool
    ensures { result ≡ names_equation_of sign (option_copied literal.entry) }
{
    match literal {
        Some(literal) => literal.positive == sign && is_equation(&literal.atom),
        None => false,
    }
}

#[tactic(auto, using(crate::proofs::Walks::ruling))]
fn are_opposite(first: Option<&Literal>, second: Option<&Literal>) -> bool
    ensures { result ≡ have_opposite_signs (option_copied first.entry) (option_copied second.entry) }
{
    let Some(first) = first else {
        return false;
    };
    let Some(second) = second else {
        return false;
    };
    !is_equation(&first.atom) && (!is_equation(&second.atom) && first.positive == !second.positive)
}

#[tactic(auto, using(crate::proofs::Walks::ruling))]
fn has_place(literal: Option<&Literal>, path: &[u32]) -> bool
    ensures { result ≡ names_place path.now (option_copied literal.entry) }
{
    match literal {
        Some(literal) => part_of(&literal.atom, path).is_some(),
        None => false,
    }
}
