ghost use Rattle.std.specs.Prelude.{◌≡◌, ◌==◌, IfOk, OnOk, map, option_copied};
ghost use Rattle.am_term.specs.Instance.{instance, instances};
ghost use Rattle.am_rules.specs.Parts.{atom_under, literal_under, answer_under, all_but, added_unless};
ghost use Rattle.am_term.specs.Place.{member as is_literal_at};

use am_term::{Atom, Literal, NoMemory, Term, copy};
use sqlite_items::{Items, at};
use std::alloc::Global;

/// The i-th literal, from 1.
pub fn literal_at(literals: &[Literal], i: u32) -> Option<&Literal>
    ensures { option_copied result ≡ is_literal_at literals.now i }
{
    if i == 0 {
        return None;
    }
    at(literals, i as usize - 1)
}

/// The instance of a term: a variable whose number is past the list stays.
#[cycle(instancing)]
#[tactic(auto, using(crate::proofs::Walks::instancing))]
pub fn instance_of(alloc: Global, term: &Term, with: &[Term]) -> Result<Term, NoMemory>
    ensures { IfOk result (λ t. t ≡ instance with.now term.now) }
{
    match term {
        Term::Var { n, sort } => {
            let place = *n as usize;
            if place < with.len() {
                copy(alloc, &with[place])
            } else {
                Ok(Term::Var { n: *n, sort: *sort })
            }
        }
        Term::In { k } => Ok(Term::In { k: *k }),
        Term::App { f, args } => {
            let args = instances_of(alloc, args.as_slice(), with)?;
            Ok(Term::App { f: *f, args })
        }
    }
}

#[cycle(instancing)]
#[tactic(auto, using(crate::proofs::Walks::instancing))]
pub fn instances_of(alloc: Global, terms: &[Term], with: &[Term]) -> Result<Items<Term>, NoMemory>
    ensures { IfOk result (λ ts. ts ≡ instances with.now terms.now) }
{
    let mut made = Items::new(alloc);
    for term in terms {
        made.push(instance_of(alloc, term, with)?)?;
    }
    Ok(made)
}

#[tactic(auto, using(crate::proofs::Walks::instancing))]
fn instance_of_atom(alloc: Global, atom: &Atom, with: &[Term]) -> Result<Atom, NoMemory>
    ensures { IfOk result (λ a. a ≡ atom_under with.now atom.now) }
{
    match atom {
        Atom::Rel { r, args } => {
            let args = instances_of(alloc, args.as_slice(), with)?;
            Ok(Atom::Rel { r: *r, args })
        }
        Atom::Eq { left, right } => {
            let left = instance_of(alloc, left, with)?;
            let right = instance_of(alloc, right, with)?;
            Ok(Atom::Eq { left, right })
        }
    }
}

#[tactic(auto, using(crate::proofs::Walks::instancing))]
pub fn instance_of_answer(
    alloc: Global,
    answer: &Option<Items<Term>>,
    with: &[Term],
) -> Result<Option<Items<Term>>, NoMemory>
    ensures { IfOk result (λ o. o ≡ answer_under with.now answer.now) }
{
    match answer {
        Some(terms) => Ok(Some(instances_of(alloc, terms.as_slice(), with)?)),
        None => Ok(None),
    }
}

pub fn instance_of_literal(
    alloc: Global,
    literal: &Literal,
    with: &[Term],
) -> Result<Literal, NoMemory>
    ensures { IfOk result (λ l. l ≡ literal_under with.now literal.now) }
{
    let atom = instance_of_atom(alloc, &literal.atom, with)?;
    Ok(Literal {
        positive: literal.positive,
        atom,
    })
}

// One more literal's instance, unless it is skipped.
fn add_unless(
    alloc: Global,
    made: &mut Items<Literal>,
    is_skipped: bool,
    literal: &Literal,
    with: &[Term],
) -> Result<(), NoMemory>
    ensures { OnOk result (made.new ≡ added_unless made.old is_skipped (literal_under with.now literal.now)) }
{
    if is_skipped {
        return Ok(());
    }
    made.push(instance_of_literal(alloc, literal, with)?)?;
    Ok(())
}

/// The instances of the literals but the i-th, from 1.
#[tactic(auto, using(crate::proofs::Walks::skipping))]
pub fn instances_without(
    alloc: Global,
    literals: &[Literal],
    i: u32,
    with: &[Term],
) -> Result<Items<Literal>, NoMemory>
    ensures { IfOk result (λ ls. ls ≡ map (literal_under with.now) (all_but i literals.now)) }
{
    let mut made = Items::new(alloc);
    let mut rest = literals;
    let mut left = i;
    'all: while let [literal, behind @ ..] = rest {
        let is_skipped = left == 1;
        add_unless(alloc, &mut made, is_skipped, literal, with)?;
        left = left.saturating_sub(1);
        rest = behind;
    }
    Ok(made)
}
