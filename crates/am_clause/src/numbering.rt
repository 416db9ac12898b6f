ghost use Rattle.std.specs.Prelude.{◌≡◌, ◌<◌, length, map, IfOk};
ghost use Rattle.am_clause.specs.Variables.{variables};
ghost use Rattle.am_clause.specs.Renaming.{places_in, renamed, renamed_all, renamed_atom, renamed_literal, renamed_answer, renumbered};

use crate::clause::Clause;
use crate::collecting::{clause_variables, place};
use am_term::{Atom, Literal, NoMemory, SortId, Term};
use sqlite_items::Items;
use std::alloc::Global;

/// The clause with its variables numbered from 0 by first occurrence, the literals first, then the
/// answer. Two variables are one where both their numbers and their sorts are. This project's own rule.
#[tactic(auto, using(crate::proofs::Passes::renumbering))]
pub fn renumber(alloc: Global, clause: &Clause) -> Result<Clause, NoMemory>
    requires few { length (variables clause.now) < 4000000000 }
    ensures { IfOk result (λ c. c ≡ renumbered clause.now) }
{
    let seen = clause_variables(alloc, clause)?;
    let literals = rename_literals(alloc, clause.literals.as_slice(), seen.as_slice())?;
    let answer = rename_answer(alloc, &clause.answer, seen.as_slice())?;
    Ok(Clause { literals, answer })
}

#[cycle(renaming)]
#[tactic(auto, using(crate::proofs::Passes::renaming))]
fn rename(alloc: Global, term: &Term, seen: &[(u32, SortId)]) -> Result<Term, NoMemory>
    requires few { length seen.now < 4000000000 }
    ensures { IfOk result (λ t. t ≡ renamed (places_in seen.now) term.now) }
{
    match term {
        Term::Var { n, sort } => Ok(Term::Var {
            n: place(seen, *n, *sort) as u32,
            sort: *sort,
        }),
        Term::In { k } => Ok(Term::In { k: *k }),
        Term::App { f, args } => {
            let args = rename_all(alloc, args.as_slice(), seen)?;
            Ok(Term::App { f: *f, args })
        }
    }
}

#[cycle(renaming)]
#[tactic(auto, using(crate::proofs::Passes::renaming))]
fn rename_all(
    alloc: Global,
    terms: &[Term],
    seen: &[(u32, SortId)],
) -> Result<Items<Term>, NoMemory>
    requires few { length seen.now < 4000000000 }
    ensures { IfOk result (λ ts. ts ≡ renamed_all (places_in seen.now) terms.now) }
{
    let mut made = Items::new(alloc);
    for term in terms {
        made.push(rename(alloc, term, seen)?)?;
    }
    Ok(made)
}

#[tactic(auto, using(crate::proofs::Passes::renaming))]
fn rename_atom(alloc: Global, atom: &Atom, seen: &[(u32, SortId)]) -> Result<Atom, NoMemory>
    requires few { length seen.now < 4000000000 }
    ensures { IfOk result (λ a. a ≡ renamed_atom (places_in seen.now) atom.now) }
{
    match atom {
        Atom::Rel { r, args } => {
            let args = rename_all(alloc, args.as_slice(), seen)?;
            Ok(Atom::Rel { r: *r, args })
        }
        Atom::Eq { left, right } => {
            let left = rename(alloc, left, seen)?;
            let right = rename(alloc, right, seen)?;
            Ok(Atom::Eq { left, right })
        }
    }
}

#[tactic(auto, using(crate::proofs::Passes::renaming))]
fn rename_literals(
    alloc: Global,
    literals: &[Literal],
    seen: &[(u32, SortId)],
) -> Result<Items<Literal>, NoMemory>
    requires few { length seen.now < 4000000000 }
    ensures { IfOk result (λ ls. ls ≡ map (renamed_literal (places_in seen.now)) literals.now) }
{
    let mut made = Items::new(alloc);
    for literal in literals {
        let atom = rename_atom(alloc, &literal.atom, seen)?;
        made.push(Literal {
            positive: literal.positive,
            atom,
        })?;
    }
    Ok(made)
}

#[tactic(auto, using(crate::proofs::Passes::renaming))]
fn rename_answer(
    alloc: Global,
    answer: &Option<Items<Term>>,
    seen: &[(u32, SortId)],
) -> Result<Option<Items<Term>>, NoMemory>
    requires few { length seen.now < 4000000000 }
    ensures { IfOk result (λ o. o ≡ renamed_answer (places_in seen.now) answer.now) }
{
    match answer {
        Some(terms) => Ok(Some(rename_all(alloc, terms.as_slice(), seen)?)),
        None => Ok(None),
    }
}
