ghost use Rattle.std.specs.Prelude.{◌≡◌, ◌∷◌, [], IfOk, OnOk};
ghost use Rattle.am_clause.specs.Distinct.{with_new};
ghost use Rattle.am_clause.specs.Variables.{same_variable, occurrences, occurrences_all, in_atom, in_literals, in_answer, in_formula, in_formulas, variables, variables_of};
ghost use Rattle.am_clause.specs.Renaming.{places_in};

use crate::clause::Clause;
use am_term::{Atom, Formula, Literal, NoMemory, SortId, Term};
use sqlite_items::Items;
use std::alloc::Global;

/// The different variables of a clause, each with its number and sort, by their first occurrences: the
/// literals first, then the answer.
#[tactic(auto, using(crate::proofs::Passes::collecting))]
pub fn clause_variables(alloc: Global, clause: &Clause) -> Result<Items<(u32, SortId)>, NoMemory>
    ensures { IfOk result (λ vs. vs ≡ variables clause.now) }
{
    let mut seen = Items::new(alloc);
    collect_literals(clause.literals.as_slice(), &mut seen)?;
    collect_answer(&clause.answer, &mut seen)?;
    Ok(seen)
}

/// The different variables of a formula, each with its number and sort, by their first occurrences.
#[tactic(auto, using(crate::proofs::Passes::collecting))]
pub fn formula_variables(alloc: Global, formula: &Formula) -> Result<Items<(u32, SortId)>, NoMemory>
    ensures { IfOk result (λ vs. vs ≡ variables_of formula.now) }
{
    let mut seen = Items::new(alloc);
    collect_formula(formula, &mut seen)?;
    Ok(seen)
}

#[cycle(descending)]
#[tactic(auto, using(crate::proofs::Passes::descending))]
fn collect_formula(formula: &Formula, seen: &mut Items<(u32, SortId)>) -> Result<(), NoMemory>
    ensures { OnOk result (seen.new ≡ with_new same_variable seen.old (in_formula formula.now)) }
{
    match formula {
        Formula::Atom(atom) => collect_atom(atom, seen),
        Formula::Not(inner) => collect_formula(inner.get(), seen),
        Formula::And(parts) => collect_parts(parts.as_slice(), seen),
        Formula::Or(parts) => collect_parts(parts.as_slice(), seen),
        Formula::Implies(left, right) => {
            collect_formula(left.get(), seen)?;
            collect_formula(right.get(), seen)
        }
        Formula::Iff(left, right) => {
            collect_formula(left.get(), seen)?;
            collect_formula(right.get(), seen)
        }
    }
}

#[cycle(descending)]
#[tactic(auto, using(crate::proofs::Passes::descending))]
fn collect_parts(parts: &[Formula], seen: &mut Items<(u32, SortId)>) -> Result<(), NoMemory>
    ensures { OnOk result (seen.new ≡ with_new same_variable seen.old (in_formulas parts.now)) }
{
    for part in parts {
        collect_formula(part, seen)?;
    }
    Ok(())
}

#[tactic(auto, using(crate::proofs::Passes::collecting))]
fn collect_literals(literals: &[Literal], seen: &mut Items<(u32, SortId)>) -> Result<(), NoMemory>
    ensures { OnOk result (seen.new ≡ with_new same_variable seen.old (in_literals literals.now)) }
{
    for literal in literals {
        collect_atom(&literal.atom, seen)?;
    }
    Ok(())
}

#[tactic(auto, using(crate::proofs::Passes::collecting))]
fn collect_answer(
    answer: &Option<Items<Term>>,
    seen: &mut Items<(u32, SortId)>,
) -> Result<(), NoMemory>
    ensures { OnOk result (seen.new ≡ with_new same_variable seen.old (in_answer answer.now)) }
{
    match answer {
        Some(terms) => collect_all(terms.as_slice(), seen),
        None => Ok(()),
    }
}

#[tactic(auto, using(crate::proofs::Passes::collecting))]
fn collect_atom(atom: &Atom, seen: &mut Items<(u32, SortId)>) -> Result<(), NoMemory>
    ensures { OnOk result (seen.new ≡ with_new same_variable seen.old (in_atom atom.now)) }
{
    match atom {
        Atom::Rel { args, .. } => collect_all(args.as_slice(), seen),
        Atom::Eq { left, right } => {
            collect(left, seen)?;
            collect(right, seen)
        }
    }
}

#[cycle(collecting)]
#[tactic(auto, using(crate::proofs::Passes::collecting))]
fn collect_all(terms: &[Term], seen: &mut Items<(u32, SortId)>) -> Result<(), NoMemory>
    ensures { OnOk result (seen.new ≡ with_new same_variable seen.old (occurrences_all terms.now)) }
{
    for term in terms {
        collect(term, seen)?;
    }
    Ok(())
}

#[cycle(collecting)]
#[tactic(auto, using(crate::proofs::Passes::collecting))]
fn collect(term: &Term, seen: &mut Items<(u32, SortId)>) -> Result<(), NoMemory>
    ensures { OnOk result (seen.new ≡ with_new same_variable seen.old (occurrences term.now)) }
{
    match term {
        Term::Var { n, sort } => note(seen, *n, *sort),
        Term::In { .. } => Ok(()),
        Term::App { args, .. } => collect_all(args.as_slice(), seen),
    }
}

#[tactic(auto, using(crate::proofs::Passes::collecting))]
fn note(seen: &mut Items<(u32, SortId)>, n: u32, sort: SortId) -> Result<(), NoMemory>
    ensures { OnOk result (seen.new ≡ with_new same_variable seen.old ((n, sort) ∷ [])) }
{
    if place(seen.as_slice(), n, sort) < seen.len() {
        return Ok(());
    }
    seen.push((n, sort))?;
    Ok(())
}

// The place of a variable in a list, or the length.
#[tactic(auto, using(crate::proofs::Passes::placing))]
pub fn place(seen: &[(u32, SortId)], n: u32, sort: SortId) -> usize
    ensures { result ≡ places_in seen.now n sort }
{
    for i in 0..seen.len() {
        if is_variable(&seen[i], n, sort) {
            return i;
        }
    }
    seen.len()
}

#[tactic(auto, unfolding(crate::specs::Variables::same_variable))]
fn is_variable(variable: &(u32, SortId), n: u32, sort: SortId) -> bool
    ensures { result ≡ same_variable (n, sort) variable.now }
{
    n == variable.0 && sort.0 == variable.1.0
}
