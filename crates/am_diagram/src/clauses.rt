ghost use Rattle.std.specs.Prelude.{◌≡◌, ◌+◌, ◌<◌, ◌++◌, IfOk, length, map};
ghost use Rattle.am_clause.specs.Goals.{given_clause, negated};
ghost use Rattle.am_diagram.specs.Facts.{IsDrawn};
ghost use Rattle.am_diagram.specs.Clauses.{entry_variables_from, output_terms, goal, givens};

use crate::diagram::Diagram;
use am_clause::{Clause, renumber};
use am_term::{Literal, Name, NoMemory, SortId, Term, copy_atom, copy_literal};
use sqlite_items::Items;
use std::alloc::Global;

/// The goal: the negated requirements in order, with the outputs as answer, renumbered.
#[tactic(auto, using(crate::proofs::GoalVariables::counting), unfolding(crate::specs::Clauses::goal))]
pub fn goal_of(alloc: Global, diagram: &Diagram) -> Result<Clause, NoMemory>
    requires { IsDrawn diagram.now }
    ensures { IfOk result (λ c. c ≡ goal diagram.now) }
{
    let literals = negated_all(alloc, diagram.required.as_slice())?;
    let answer = Some(output_terms(alloc, diagram)?);
    renumber(alloc, &Clause { literals, answer })
}

fn negated_all(alloc: Global, literals: &[Literal]) -> Result<Items<Literal>, NoMemory>
    ensures { IfOk result (λ ls. ls ≡ map negated literals.now) }
{
    let mut made = Items::new(alloc);
    for literal in literals {
        made.push(negated(alloc, literal)?)?;
    }
    Ok(made)
}

fn negated(alloc: Global, literal: &Literal) -> Result<Literal, NoMemory>
    ensures { IfOk result (λ l. l ≡ negated literal.now) }
{
    let atom = copy_atom(alloc, &literal.atom)?;
    Ok(Literal {
        positive: !literal.positive,
        atom,
    })
}

#[tactic(auto, using(crate::proofs::GoalVariables::counting))]
fn output_terms(alloc: Global, diagram: &Diagram) -> Result<Items<Term>, NoMemory>
    requires { IsDrawn diagram.now }
    ensures { IfOk result (λ ts. ts ≡ output_terms diagram.now) }
{
    let count = diagram.objects.len() as u32;
    variables_from(alloc, count, diagram.outputs.as_slice())
}

fn variables_from(
    alloc: Global,
    first: u32,
    variables: &[(Name, SortId)],
) -> Result<Items<Term>, NoMemory>
    requires { first + length variables.now < 4294967296 }
    ensures { IfOk result (λ ts. ts ≡ entry_variables_from first variables.now) }
{
    let mut made = Items::new(alloc);
    let mut number = first;
    let mut rest = variables;
    while let [(_, sort), behind @ ..] = rest {
        made.push(Term::Var {
            n: number,
            sort: *sort,
        })?;
        number += 1;
        rest = behind;
    }
    Ok(made)
}

/// The givens: each a clause of one literal, without answer.
#[tactic(auto, unfolding(crate::specs::Clauses::givens))]
pub fn givens_of(alloc: Global, diagram: &Diagram) -> Result<Items<Clause>, NoMemory>
    ensures { IfOk result (λ cs. cs ≡ givens diagram.now) }
{
    given_clauses(alloc, diagram.givens.as_slice())
}

fn given_clauses(alloc: Global, givens: &[Literal]) -> Result<Items<Clause>, NoMemory>
    ensures { IfOk result (λ cs. cs ≡ map given_clause givens.now) }
{
    let mut made = Items::new(alloc);
    for given in givens {
        made.push(given_clause(alloc, given)?)?;
    }
    Ok(made)
}

fn given_clause(alloc: Global, given: &Literal) -> Result<Clause, NoMemory>
    ensures { IfOk result (λ c. c ≡ given_clause given.now) }
{
    let mut literals = Items::new(alloc);
    literals.push(copy_literal(alloc, given)?)?;
    Ok(Clause {
        literals,
        answer: None,
    })
}
