//! Whether a term has the symbols and inputs of a pattern, told without bindings.
ghost use Rattle.std.specs.Prelude.{◌≡◌};
ghost use Rattle.am_clause.specs.Rules.{side_of};
ghost use Rattle.am_term.specs.Same.{is_in};
ghost use Rattle.am_term.specs.declared.term.Term.TheViews.{out-Term};
ghost use Rattle.am_simplify.specs.Agreement.{term_agrees, agree_all, side_agrees as is_side_agreeing, unit_agrees as is_unit_agreeing};

use crate::step::Unit;
use am_clause::Side;
use am_term::{Atom, Term};

/// Whether the side from which a unit is used has no symbol and no input that the part lacks: where it has one, the
/// unit doesn't rewrite the part. Takes no memory.
pub fn unit_agrees(unit: &Unit, part: &Term) -> bool
    ensures { result ≡ is_unit_agreeing unit.now part.now }
{
    match unit.clause.literals.as_slice() {
        [] => false,
        [literal, ..] => side_agrees(unit.side, &literal.atom, part),
    }
}

fn side_agrees(side: Side, atom: &Atom, part: &Term) -> bool
    ensures { result ≡ is_side_agreeing (side_of side atom.now) part.now }
{
    match atom {
        Atom::Rel { .. } => false,
        Atom::Eq { left, right } => match side {
            Side::Left => agrees(left, part),
            Side::Right => agrees(right, part),
        },
    }
}

// Whether the term has the pattern's symbols and inputs.
#[cycle(agreeing)]
#[tactic(auto, using(crate::proofs::Unmatched::agreeing))]
fn agrees(pattern: &Term, term: &Term) -> bool
    ensures { result ≡ term_agrees pattern.now term.now }
{
    match pattern {
        Term::Var { .. } => true,
        Term::In { k } => is_input(term, *k),
        Term::App { f, args } => match term {
            Term::Var { .. } => false,
            Term::In { .. } => false,
            Term::App { f: g, args: others } => {
                f.0 == g.0 && agrees_all(args.as_slice(), others.as_slice())
            }
        },
    }
}

// Whether there are as many terms as patterns, and each has its pattern's symbols and inputs.
#[cycle(agreeing)]
#[tactic(auto, using(crate::proofs::Unmatched::agreeing))]
fn agrees_all(patterns: &[Term], terms: &[Term]) -> bool
    ensures { result ≡ agree_all patterns.now terms.now }
{
    let mut rest = patterns;
    let mut others = terms;
    while let [pattern, behind @ ..] = rest {
        match others {
            [] => return false,
            [term, later @ ..] => {
                if !agrees(pattern, term) {
                    return false;
                }
                others = later;
            }
        }
        rest = behind;
    }
    others.is_empty()
}

/// Whether a term is this input.
#[tactic(auto, using(crate::proofs::Runs::inputs))]
pub fn is_input(term: &Term, k: u32) -> bool
    ensures { result ≡ is_in k (out-Term term.now) }
{
    match term {
        Term::Var { .. } => false,
        Term::In { k: j } => k == *j,
        Term::App { .. } => false,
    }
}
