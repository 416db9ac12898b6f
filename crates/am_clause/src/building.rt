ghost use Rattle.std.specs.Prelude.{◌≡◌, ◌++◌, ◌∷◌, [], map, IfOk, OnOk};
ghost use Rattle.std.specs.List.{list_any};
ghost use Rattle.am_clause.specs.ClauseForm.{product, unit};
ghost use Rattle.am_clause.specs.Forms.{form_of, forms, forms_product};
ghost use Rattle.am_clause.specs.Bounded.{are_none, both, bounded, fitted, fitted_product, is_long, none_among, widened, widened_by};

use crate::counting::count_clauses;
use crate::merging::add_new;
use am_term::{Atom, Formula, Literal, NoMemory, copy_atom, copy_literal};
use sqlite_items::Items;
use std::alloc::Global;

/// Clauses as lists of literals.
pub type Lists = Items<Items<Literal>>;

// The clauses of a formula, or of its negation, each as a list of literals in which equal ones are merged;
// `None` where a clause has more than `most` of them.
#[cycle(building)]
#[tactic(auto, using(crate::proofs::Parts::building))]
pub fn build(
    alloc: Global,
    formula: &Formula,
    positive: bool,
    most: usize,
) -> Result<Option<Lists>, NoMemory>
    ensures { IfOk result (λ cs. cs ≡ bounded most (form_of positive formula.now)) }
{
    match formula {
        Formula::Atom(atom) => one(alloc, positive, atom, most),
        Formula::Not(inner) => build(alloc, inner.get(), !positive, most),
        Formula::And(parts) => {
            if positive {
                return join_all(alloc, parts.as_slice(), true, most);
            }
            multiply_all(alloc, parts.as_slice(), false, most)
        }
        Formula::Or(parts) => {
            if positive {
                return multiply_all(alloc, parts.as_slice(), true, most);
            }
            join_all(alloc, parts.as_slice(), false, most)
        }
        Formula::Implies(left, right) => {
            if positive {
                return pair(alloc, left.get(), false, right.get(), true, most);
            }
            let made = build(alloc, left.get(), true, most)?;
            let more = build(alloc, right.get(), false, most)?;
            join(made, more)
        }
        Formula::Iff(left, right) => {
            if positive {
                let made = pair(alloc, left.get(), false, right.get(), true, most)?;
                let more = pair(alloc, right.get(), false, left.get(), true, most)?;
                return join(made, more);
            }
            let made = pair(alloc, left.get(), true, right.get(), true, most)?;
            let more = pair(alloc, left.get(), false, right.get(), false, most)?;
            join(made, more)
        }
    }
}

// The product of what two formulas give. Where one gives nothing, neither is gone into: a product with
// nothing is nothing, however large its other factor is.
#[cycle(building)]
#[tactic(auto, using(crate::proofs::Parts::building))]
fn pair(
    alloc: Global,
    left: &Formula,
    first: bool,
    right: &Formula,
    second: bool,
    most: usize,
) -> Result<Option<Lists>, NoMemory>
    ensures { IfOk result (λ cs. cs ≡ bounded most (product (form_of first left.now) (form_of second right.now))) }
{
    if has_none(left, first) {
        return Ok(Some(Items::new(alloc)));
    }
    if has_none(right, second) {
        return Ok(Some(Items::new(alloc)));
    }
    let firsts = build(alloc, left, first, most)?;
    let seconds = build(alloc, right, second, most)?;
    multiply(alloc, firsts, seconds, most)
}

#[cycle(building)]
#[tactic(auto, using(crate::proofs::Parts::building))]
fn join_all(
    alloc: Global,
    parts: &[Formula],
    positive: bool,
    most: usize,
) -> Result<Option<Lists>, NoMemory>
    ensures { IfOk result (λ cs. cs ≡ bounded most (forms positive parts.now)) }
{
    let mut made = Some(Items::new(alloc));
    for part in parts {
        made = join(made, build(alloc, part, positive, most)?)?;
    }
    Ok(made)
}

#[cycle(building)]
#[tactic(auto, using(crate::proofs::Parts::building))]
fn multiply_all(
    alloc: Global,
    parts: &[Formula],
    positive: bool,
    most: usize,
) -> Result<Option<Lists>, NoMemory>
    ensures { IfOk result (λ cs. cs ≡ bounded most (forms_product positive parts.now)) }
{
    if none_among(parts, positive) {
        return Ok(Some(Items::new(alloc)));
    }
    let mut made = Some(empty_clause(alloc)?);
    for part in parts {
        made = multiply(alloc, made, build(alloc, part, positive, most)?, most)?;
    }
    Ok(made)
}

// Whether the formula, or its negation, has no clauses.
#[tactic(auto, using(crate::proofs::Parts::guarding))]
fn has_none(formula: &Formula, positive: bool) -> bool
    ensures { result ≡ are_none (form_of positive formula.now) }
{
    let count = count_clauses(formula);
    if positive {
        return count.pos == 0;
    }
    count.neg == 0
}

// Whether that is so of one of the formulas.
#[tactic(auto, unfolding(crate::specs::Bounded::none_among))]
fn none_among(formulas: &[Formula], positive: bool) -> bool
    ensures { result ≡ none_among positive formulas.now }
{
    formulas.iter().any(|formula| has_none(formula, positive))
}

#[tactic(auto, using(crate::proofs::Parts::building))]
fn empty_clause(alloc: Global) -> Result<Lists, NoMemory>
    ensures { IfOk result (λ cs. cs ≡ [] ∷ []) }
{
    let mut made = Items::new(alloc);
    made.push(Items::new(alloc))?;
    Ok(made)
}

#[tactic(auto, using(crate::proofs::Parts::fitting))]
fn one(alloc: Global, positive: bool, atom: &Atom, most: usize) -> Result<Option<Lists>, NoMemory>
    ensures { IfOk result (λ cs. cs ≡ bounded most (unit positive atom.now)) }
{
    if most == 0 {
        return Ok(None);
    }
    Ok(Some(one_literal(alloc, positive, atom)?))
}

#[tactic(auto, unfolding(crate::specs::ClauseForm::unit))]
fn one_literal(alloc: Global, positive: bool, atom: &Atom) -> Result<Lists, NoMemory>
    ensures { IfOk result (λ cs. cs ≡ unit positive atom.now) }
{
    let atom = copy_atom(alloc, atom)?;
    let mut literals = Items::new(alloc);
    literals.push(Literal { positive, atom })?;
    let mut made = Items::new(alloc);
    made.push(literals)?;
    Ok(made)
}

#[tactic(auto, using(crate::proofs::Parts::joining))]
fn join(firsts: Option<Lists>, seconds: Option<Lists>) -> Result<Option<Lists>, NoMemory>
    ensures { IfOk result (λ cs. cs ≡ both firsts seconds) }
{
    let Some(mut made) = firsts else {
        return Ok(None);
    };
    let Some(more) = seconds else {
        return Ok(None);
    };
    made.append(more)?;
    Ok(Some(made))
}

// The product, each clause merged.
#[tactic(auto, using(crate::proofs::Parts::joining))]
fn multiply(
    alloc: Global,
    firsts: Option<Lists>,
    seconds: Option<Lists>,
    most: usize,
) -> Result<Option<Lists>, NoMemory>
    ensures { IfOk result (λ cs. cs ≡ fitted_product most firsts seconds) }
{
    let Some(firsts) = firsts else {
        return Ok(None);
    };
    let Some(seconds) = seconds else {
        return Ok(None);
    };
    let made = widen(alloc, firsts, seconds.as_slice())?;
    Ok(fit(made, most))
}

// The clauses, unless one is too long.
#[tactic(auto, using(crate::proofs::Parts::fitting))]
fn fit(lists: Lists, most: usize) -> Option<Lists>
    ensures { result ≡ fitted most lists }
{
    if has_long(lists.as_slice(), most) {
        return None;
    }
    Some(lists)
}

fn has_long(lists: &[Items<Literal>], most: usize) -> bool
    ensures { result ≡ list_any (is_long most) lists.now }
{
    lists.iter().any(|literals| literals.len() > most)
}

// Each of the first widened by each of the second. Where the second is one clause, what is new of it is put
// behind each of the first where that stands, so that a clause may grow by many factors without being copied.
#[tactic(auto, using(crate::proofs::Parts::multiplying))]
fn widen(alloc: Global, firsts: Lists, seconds: &[Items<Literal>]) -> Result<Lists, NoMemory>
    ensures { IfOk result (λ cs. cs ≡ widened firsts seconds.now) }
{
    match seconds {
        [second] => extend(alloc, firsts, second.as_slice()),
        _ => widen_copies(alloc, firsts.as_slice(), seconds),
    }
}

#[tactic(auto, using(crate::proofs::Parts::extending))]
fn extend(alloc: Global, firsts: Lists, second: &[Literal]) -> Result<Lists, NoMemory>
    ensures { IfOk result (λ cs. cs ≡ widened firsts (second.now ∷ [])) }
{
    let mut rest = firsts;
    let mut made = Items::new(alloc);
    'clauses: while !rest.is_empty() {
        made.push(add_new(alloc, rest.remove(0), second)?)?;
    }
    Ok(made)
}

#[tactic(auto, using(crate::proofs::Parts::multiplying))]
fn widen_copies(
    alloc: Global,
    firsts: &[Items<Literal>],
    seconds: &[Items<Literal>],
) -> Result<Lists, NoMemory>
    ensures { IfOk result (λ cs. cs ≡ widened firsts.now seconds.now) }
{
    let mut made = Items::new(alloc);
    for first in firsts {
        follow(alloc, &mut made, first.as_slice(), seconds)?;
    }
    Ok(made)
}

// The first clause widened by each of the others, put to the end.
#[tactic(auto, using(crate::proofs::Parts::multiplying))]
fn follow(
    alloc: Global,
    made: &mut Lists,
    first: &[Literal],
    seconds: &[Items<Literal>],
) -> Result<(), NoMemory>
    ensures { OnOk result (made.new ≡ made.old ++ widened_by first.now seconds.now) }
{
    for second in seconds {
        let literals = copy_literals(alloc, first)?;
        made.push(add_new(alloc, literals, second.as_slice())?)?;
    }
    Ok(())
}

#[tactic(auto, using(crate::proofs::Parts::multiplying))]
pub fn copy_literals(alloc: Global, literals: &[Literal]) -> Result<Items<Literal>, NoMemory>
    ensures { IfOk result (λ ls. ls ≡ literals.now) }
{
    let mut made = Items::new(alloc);
    for literal in literals {
        made.push(copy_literal(alloc, literal)?)?;
    }
    Ok(made)
}
