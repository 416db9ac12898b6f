ghost use Rattle.std.specs.Prelude.{◌≡◌, IfOk, map};
ghost use Rattle.am_clause.specs.ClauseForm.{cnf};
ghost use Rattle.am_check.specs.Phases.{IsOrigin};
ghost use Rattle.am_diagram.specs.Facts.{WellFormed as WellDrawn};
ghost use Rattle.am_diagram.specs.Listed.{entry_sorts};
ghost use Rattle.am_diagram.specs.Steps.{formulas_of};

use am_clause::{Clause, ClauseFault, clauses_of, formula_variables};
use am_diagram::{Diagram, givens_of, goal_of};
use am_term::{Formula, NoMemory, SortId};
use am_theory::Theory;
use sqlite_items::Items;
use std::alloc::Global;

/// What the proofs of a diagram start from, made once: the clauses of each axiom, the goal, the givens; and the
/// sorts of the inputs.
#[derive(Drop)]
pub struct Origin {
    pub axioms: Items<Items<Clause>>,
    pub goal: Clause,
    pub givens: Items<Clause>,
    pub sorts: Items<SortId>,
}

/// What the proofs of this diagram start from.
#[tactic(auto, using(crate::proofs::Drawing::drawing))]
pub fn origin_of(alloc: Global, theory: &Theory, diagram: &Diagram) -> Result<Origin, NoMemory>
    requires diagram { WellDrawn theory.now diagram.now }
    ensures { IfOk result (IsOrigin theory.now diagram.now) }
{
    let axioms = clauses_of_all(alloc, theory)?;
    let goal = goal_of(alloc, diagram)?;
    let givens = givens_of(alloc, diagram)?;
    let sorts = input_sorts(alloc, diagram)?;
    Ok(Origin {
        axioms,
        goal,
        givens,
        sorts,
    })
}

fn clauses_of_all(alloc: Global, theory: &Theory) -> Result<Items<Items<Clause>>, NoMemory>
    ensures { IfOk result (λ made. made ≡ map cnf (formulas_of theory.now)) }
{
    let mut made = Items::new(alloc);
    for axiom in theory.axioms.as_slice() {
        made.push(clauses(alloc, &axiom.formula)?)?;
    }
    Ok(made)
}

// The clauses of an axiom's formula, of which there are no more than may be. No memory too where there are so many
// variables that their numbers might exceed 32 bits.
fn clauses(alloc: Global, formula: &Formula) -> Result<Items<Clause>, NoMemory>
    ensures { IfOk result (λ made. made ≡ cnf formula.now) }
{
    if formula_variables(alloc, formula)?.len() >= 4_000_000_000 {
        return Err(NoMemory);
    }
    match clauses_of(alloc, formula) {
        Ok(made) => Ok(made),
        Err(ClauseFault::TooManyClauses(_)) => Err(NoMemory),
        Err(ClauseFault::NoMemory) => Err(NoMemory),
    }
}

/// The sorts of the inputs, in order.
pub fn input_sorts(alloc: Global, diagram: &Diagram) -> Result<Items<SortId>, NoMemory>
    ensures { IfOk result (λ sorts. sorts ≡ entry_sorts diagram.now.inputs) }
{
    let mut sorts = Items::new(alloc);
    for input in diagram.inputs.as_slice() {
        sorts.push(input.1)?;
    }
    Ok(sorts)
}
