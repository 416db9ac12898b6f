ghost use Rattle.std.specs.Prelude.{◌≡◌, [], IfOk, slice_get};
ghost use Rattle.std.specs.List.{flat_map};
ghost use Rattle.am_clause.specs.Variables.{occurrences, occurrences_all, in_atom, in_literals, in_answer, in_clause};
ghost use Rattle.am_clause.specs.Walks.{walk, walk_one};
ghost use Rattle.am_calculus.specs.Faults.{is_numbered_row};

use am_clause::{Clause, Row};
use am_term::{Atom, Literal, NoMemory, SortId, Term};
use sqlite_items::Items;
use std::alloc::Global;

/// Whether the variables of a row are numbered by first occurrence.
#[tactic(auto, using(crate::proofs::WalkedCode::rows))]
pub fn numbered_row(alloc: Global, row: &Row) -> Result<bool, NoMemory>
    ensures { IfOk result (λ b. b ≡ is_numbered_row row.now) }
{
    match walk_clause(alloc, &row.clause)? {
        Some(seen) => match walk_lists(row.with.as_slice(), seen)? {
            Some(_) => Ok(true),
            None => Ok(false),
        },
        None => Ok(false),
    }
}

/// The sorts of a clause's variables by their numbers, where these are numbered by first occurrence.
#[tactic(auto, using(crate::proofs::WalkedCode::rows))]
pub fn walk_clause(alloc: Global, clause: &Clause) -> Result<Option<Items<SortId>>, NoMemory>
    ensures { IfOk result (λ o. o ≡ walk [] (in_clause clause.now)) }
{
    match walk_literals(clause.literals.as_slice(), Items::new(alloc))? {
        Some(seen) => walk_answer(&clause.answer, seen),
        None => Ok(None),
    }
}

#[tactic(auto, using(crate::proofs::WalkedCode::rows))]
fn walk_answer(
    answer: &Option<Items<Term>>,
    seen: Items<SortId>,
) -> Result<Option<Items<SortId>>, NoMemory>
    ensures { IfOk result (λ o. o ≡ walk seen (in_answer answer.now)) }
{
    match answer {
        Some(terms) => walk_terms(terms.as_slice(), seen),
        None => Ok(Some(seen)),
    }
}

#[tactic(auto, using(crate::proofs::WalkedCode::rows))]
fn walk_literals(
    literals: &[Literal],
    seen: Items<SortId>,
) -> Result<Option<Items<SortId>>, NoMemory>
    ensures { IfOk result (λ o. o ≡ walk seen (in_literals literals.now)) }
{
    let mut made = seen;
    for literal in literals {
        match walk_atom(&literal.atom, made)? {
            Some(more) => made = more,
            None => return Ok(None),
        }
    }
    Ok(Some(made))
}

#[tactic(auto, using(crate::proofs::WalkedCode::rows))]
fn walk_atom(atom: &Atom, seen: Items<SortId>) -> Result<Option<Items<SortId>>, NoMemory>
    ensures { IfOk result (λ o. o ≡ walk seen (in_atom atom.now)) }
{
    match atom {
        Atom::Rel { args, .. } => walk_terms(args.as_slice(), seen),
        Atom::Eq { left, right } => match walk_term(left, seen)? {
            Some(more) => walk_term(right, more),
            None => Ok(None),
        },
    }
}

#[tactic(auto, using(crate::proofs::WalkedCode::rows))]
fn walk_lists(lists: &[Items<Term>], seen: Items<SortId>) -> Result<Option<Items<SortId>>, NoMemory>
    ensures { IfOk result (λ o. o ≡ walk seen (flat_map occurrences_all lists.now)) }
{
    let mut made = seen;
    for list in lists {
        match walk_terms(list.as_slice(), made)? {
            Some(more) => made = more,
            None => return Ok(None),
        }
    }
    Ok(Some(made))
}

// The sorts of the numbers after one more variable.
#[tactic(auto, using(crate::proofs::WalkedCode::walking))]
fn walk_variable(
    seen: Items<SortId>,
    n: u32,
    sort: SortId,
) -> Result<Option<Items<SortId>>, NoMemory>
    ensures { IfOk result (λ o. o ≡ walk_one seen (n, sort) (slice_get seen n)) }
{
    let mut made = seen;
    let known = made.get(n as usize).copied();
    match known {
        Some(other) => {
            if other.0 == sort.0 {
                Ok(Some(made))
            } else {
                Ok(None)
            }
        }
        None => {
            if n as usize == made.len() {
                made.push(sort)?;
                Ok(Some(made))
            } else {
                Ok(None)
            }
        }
    }
}

#[cycle(walking)]
#[tactic(auto, using(crate::proofs::WalkedCode::walking))]
fn walk_term(term: &Term, seen: Items<SortId>) -> Result<Option<Items<SortId>>, NoMemory>
    ensures { IfOk result (λ o. o ≡ walk seen (occurrences term.now)) }
{
    match term {
        Term::Var { n, sort } => walk_variable(seen, *n, *sort),
        Term::In { .. } => Ok(Some(seen)),
        Term::App { args, .. } => walk_terms(args.as_slice(), seen),
    }
}

/// The sorts of the numbers given so far after some terms, where these go on from there.
#[cycle(walking)]
#[tactic(auto, using(crate::proofs::WalkedCode::walking))]
pub fn walk_terms(terms: &[Term], seen: Items<SortId>) -> Result<Option<Items<SortId>>, NoMemory>
    ensures { IfOk result (λ o. o ≡ walk seen (occurrences_all terms.now)) }
{
    let mut made = seen;
    for term in terms {
        match walk_term(term, made)? {
            Some(more) => made = more,
            None => return Ok(None),
        }
    }
    Ok(Some(made))
}
