//! Numbers that tell of most clauses that they don't subsume another.
ghost use Rattle.std.specs.Prelude.{◌≡◌};
ghost use Rattle.am_simplify.specs.Features.{answer_features as features_of_answer, are_within, atom_features as features_of_atom, bit_of as is_bit_of, clause_features, features as features_of_term, headed_features as are_headed_features, literal_features as features_of_literal, literals_features as features_of_literals, place_with as mixed, sign_place as is_sign_place};

use am_clause::Clause;
use am_term::{Atom, Literal, Term};
use sqlite_items::Items;

const MULTIPLIER: u64 = 11_400_714_819_323_198_485;

/// The features of a clause. Takes no memory.
pub fn features(clause: &Clause) -> u64
    ensures { result ≡ clause_features clause.now }
{
    answer_features(&clause.answer) | literals_features(clause.literals.as_slice())
}

/// Whether the second number has each bit that the first one has.
pub fn within(first: u64, second: u64) -> bool
    ensures { result ≡ are_within first second }
{
    (first | second) == second
}

fn answer_features(answer: &Option<Items<Term>>) -> u64
    ensures { result ≡ features_of_answer answer.now }
{
    match answer {
        None => 0,
        Some(terms) => headed_features(11, terms.as_slice()),
    }
}

#[tactic(auto, using(crate::proofs::Featuring::featuring))]
fn literals_features(literals: &[Literal]) -> u64
    ensures { result ≡ features_of_literals literals.now }
{
    let mut found = 0;
    let mut rest = literals;
    while let [literal, behind @ ..] = rest {
        found = found | literal_features(literal);
        rest = behind;
    }
    found
}

fn literal_features(literal: &Literal) -> u64
    ensures { result ≡ features_of_literal literal.now }
{
    atom_features(sign_place(literal.positive), &literal.atom)
}

fn sign_place(positive: bool) -> u64
    ensures { result ≡ is_sign_place positive }
{
    if positive { 5 } else { 7 }
}

#[tactic(auto, using(crate::proofs::Featuring::featuring))]
fn atom_features(place: u64, atom: &Atom) -> u64
    ensures { result ≡ features_of_atom place atom.now }
{
    match atom {
        Atom::Rel { r, args } => headed_features(mix(mix(place, 4), r.0 as u64), args.as_slice()),
        Atom::Eq { left, right } => {
            let here = mix(place, 6);
            bit_of(here) | (term_features(here, left) | term_features(mix(here, 3), right))
        }
    }
}

// The features of a term that stands at a place.
#[cycle(featuring)]
#[tactic(auto, using(crate::proofs::Featuring::featuring))]
fn term_features(place: u64, term: &Term) -> u64
    ensures { result ≡ features_of_term term.now place }
{
    match term {
        Term::Var { .. } => 0,
        Term::In { k } => bit_of(mix(mix(place, 1), *k as u64)),
        Term::App { f, args } => headed_features(mix(mix(place, 2), f.0 as u64), args.as_slice()),
    }
}

// The feature of a place, and those of the terms below it.
#[cycle(featuring)]
#[tactic(auto, using(crate::proofs::Featuring::featuring))]
fn headed_features(place: u64, terms: &[Term]) -> u64
    ensures { result ≡ are_headed_features place terms.now }
{
    let mut found = bit_of(place);
    let mut here = place;
    let mut rest = terms;
    while let [term, behind @ ..] = rest {
        found = found | term_features(here, term);
        here = mix(here, 3);
        rest = behind;
    }
    found
}

// A place with one number more on the way to it.
#[tactic(auto, unfolding(crate::specs::Features::place_with))]
fn mix(place: u64, number: u64) -> u64
    ensures { result ≡ mixed place number }
{
    place.wrapping_add(number).wrapping_mul(MULTIPLIER)
}

// One bit for a place.
#[tactic(auto, unfolding(crate::specs::Features::bit_of))]
fn bit_of(place: u64) -> u64
    ensures { result ≡ is_bit_of place }
{
    1u64 << (place / 288_230_376_151_711_744 % 64)
}
