ghost use Rattle.std.specs.Prelude.{◌≡◌, ◌∷◌, [], map, IfOk, OnOk};
ghost use Rattle.am_clause.specs.declared.row.Made.{Made as IsRow};
ghost use Rattle.am_clause.specs.Distinct.{with_new};
ghost use Rattle.am_clause.specs.Variables.{same_variable, occurrences, occurrences_all};
ghost use Rattle.am_clause.specs.Renaming.{places_in, renamed, renamed_all, renamed_atom, renamed_literal, renamed_answer};
ghost use Rattle.am_rules.specs.Row.{in_lists, variables_of_made, renamed_lists};
ghost use Rattle.am_clause.specs.NumberedMade.{numbered_made};

use crate::numbers::numbered;
use am_clause::{Clause, Made, clause_variables};
use am_term::{Atom, Literal, NoMemory, SortId, Term};
use sqlite_items::Items;
use std::alloc::Global;

/// The row with its variables numbered from 0 by first occurrence: the literals first, then the answer, then the lists.
#[tactic(auto, using(crate::proofs::Walks::renumbering))]
pub fn renumber_made(alloc: Global, row: &Made) -> Result<Made, NoMemory>
    ensures { IfOk result (λ m. m ≡ numbered_made row.now) }
{
    let seen = row_variables(alloc, row)?;
    let literals = rename_literals(alloc, row.clause.literals.as_slice(), seen.as_slice())?;
    let answer = rename_answer(alloc, &row.clause.answer, seen.as_slice())?;
    let with = rename_lists(alloc, row.with.as_slice(), seen.as_slice())?;
    Ok(Made {
        clause: Clause { literals, answer },
        with,
    })
}

// The different variables of a row by their first occurrences.
#[tactic(auto, using(crate::proofs::Walks::row_collecting))]
fn row_variables(alloc: Global, row: &Made) -> Result<Items<(u32, SortId)>, NoMemory>
    ensures { IfOk result (λ vs. vs ≡ variables_of_made row.now) }
{
    let mut seen = clause_variables(alloc, &row.clause)?;
    collect_lists(row.with.as_slice(), &mut seen)?;
    Ok(seen)
}

#[tactic(auto, using(crate::proofs::Walks::collecting))]
fn collect_lists(lists: &[Items<Term>], seen: &mut Items<(u32, SortId)>) -> Result<(), NoMemory>
    ensures { OnOk result (seen.new ≡ with_new same_variable seen.old (in_lists lists.now)) }
{
    for terms in lists {
        collect_all(terms.as_slice(), seen)?;
    }
    Ok(())
}

#[tactic(auto, using(crate::proofs::Walks::renaming))]
fn rename_lists(
    alloc: Global,
    lists: &[Items<Term>],
    seen: &[(u32, SortId)],
) -> Result<Items<Items<Term>>, NoMemory>
    ensures { IfOk result (λ ws. ws ≡ renamed_lists (places_in seen.now) lists.now) }
{
    let mut made = Items::new(alloc);
    for terms in lists {
        made.push(rename_all(alloc, terms.as_slice(), seen)?)?;
    }
    Ok(made)
}

#[cycle(renaming)]
#[tactic(auto, using(crate::proofs::Walks::renaming))]
fn rename(alloc: Global, term: &Term, seen: &[(u32, SortId)]) -> Result<Term, NoMemory>
    ensures { IfOk result (λ t. t ≡ renamed (places_in seen.now) term.now) }
{
    match term {
        Term::Var { n, sort } => Ok(Term::Var {
            n: numbered(place(seen, *n, *sort))?,
            sort: *sort,
        }),
        Term::In { k } => Ok(Term::In { k: *k }),
        Term::App { f, args } => {
            let args = rename_all(alloc, args.as_slice(), seen)?;
            Ok(Term::App { f: *f, args })
        }
    }
}

#[cycle(renaming)]
#[tactic(auto, using(crate::proofs::Walks::renaming))]
fn rename_all(
    alloc: Global,
    terms: &[Term],
    seen: &[(u32, SortId)],
) -> Result<Items<Term>, NoMemory>
    ensures { IfOk result (λ ts. ts ≡ renamed_all (places_in seen.now) terms.now) }
{
    let mut made = Items::new(alloc);
    for term in terms {
        made.push(rename(alloc, term, seen)?)?;
    }
    Ok(made)
}

#[tactic(auto, using(crate::proofs::Walks::renaming))]
fn rename_atom(alloc: Global, atom: &Atom, seen: &[(u32, SortId)]) -> Result<Atom, NoMemory>
    ensures { IfOk result (λ a. a ≡ renamed_atom (places_in seen.now) atom.now) }
{
    match atom {
        Atom::Rel { r, args } => {
            let args = rename_all(alloc, args.as_slice(), seen)?;
            Ok(Atom::Rel { r: *r, args })
        }
        Atom::Eq { left, right } => {
            let left = rename(alloc, left, seen)?;
            let right = rename(alloc, right, seen)?;
            Ok(Atom::Eq { left, right })
        }
    }
}

#[tactic(auto, using(crate::proofs::Walks::renaming))]
fn rename_literals(
    alloc: Global,
    literals: &[Literal],
    seen: &[(u32, SortId)],
) -> Result<Items<Literal>, NoMemory>
    ensures { IfOk result (λ ls. ls ≡ map (renamed_literal (places_in seen.now)) literals.now) }
{
    let mut made = Items::new(alloc);
    for literal in literals {
        let atom = rename_atom(alloc, &literal.atom, seen)?;
        made.push(Literal {
            positive: literal.positive,
            atom,
        })?;
    }
    Ok(made)
}

#[tactic(auto, using(crate::proofs::Walks::renaming))]
fn rename_answer(
    alloc: Global,
    answer: &Option<Items<Term>>,
    seen: &[(u32, SortId)],
) -> Result<Option<Items<Term>>, NoMemory>
    ensures { IfOk result (λ o. o ≡ renamed_answer (places_in seen.now) answer.now) }
{
    match answer {
        Some(terms) => Ok(Some(rename_all(alloc, terms.as_slice(), seen)?)),
        None => Ok(None),
    }
}

#[cycle(collecting)]
#[tactic(auto, using(crate::proofs::Walks::collecting))]
fn collect_all(terms: &[Term], seen: &mut Items<(u32, SortId)>) -> Result<(), NoMemory>
    ensures { OnOk result (seen.new ≡ with_new same_variable seen.old (occurrences_all terms.now)) }
{
    for term in terms {
        collect(term, seen)?;
    }
    Ok(())
}

#[cycle(collecting)]
#[tactic(auto, using(crate::proofs::Walks::collecting))]
fn collect(term: &Term, seen: &mut Items<(u32, SortId)>) -> Result<(), NoMemory>
    ensures { OnOk result (seen.new ≡ with_new same_variable seen.old (occurrences term.now)) }
{
    match term {
        Term::Var { n, sort } => note(seen, *n, *sort),
        Term::In { .. } => Ok(()),
        Term::App { args, .. } => collect_all(args.as_slice(), seen),
    }
}

#[tactic(auto, using(crate::proofs::Walks::collecting))]
fn note(seen: &mut Items<(u32, SortId)>, n: u32, sort: SortId) -> Result<(), NoMemory>
    ensures { OnOk result (seen.new ≡ with_new same_variable seen.old ((n, sort) ∷ [])) }
{
    if place(seen.as_slice(), n, sort) < seen.len() {
        return Ok(());
    }
    seen.push((n, sort))?;
    Ok(())
}

// The place of a variable in a list, or the length.
#[tactic(auto, using(crate::proofs::Walks::placing))]
pub fn place(seen: &[(u32, SortId)], n: u32, sort: SortId) -> usize
    ensures { result ≡ places_in seen.now n sort }
{
    for i in 0..seen.len() {
        if is_variable(&seen[i], n, sort) {
            return i;
        }
    }
    seen.len()
}

#[tactic(auto, unfolding(am_clause::specs::Variables::same_variable))]
fn is_variable(variable: &(u32, SortId), n: u32, sort: SortId) -> bool
    ensures { result ≡ same_variable (n, sort) variable.now }
{
    n == variable.0 && sort.0 == variable.1.0
}
