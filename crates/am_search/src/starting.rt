ghost use Rattle.std.specs.Prelude.{IfOk, OnOk, ◌≡◌, ◌++◌, ◌<◌, length, map};
ghost use Rattle.am_clause.specs.ClauseForm.{cnf};
ghost use Rattle.am_search.specs.Starting.{axiom_rows, clause_rows_of, given_rows, rows_at_first, theory_rows as rows_of_theory};
ghost use Rattle.am_theory.specs.declared.theory.Axiom.{Axiom as Stated};

use crate::rows::after;
use am_clause::{Clause, ClauseFault, Row, Rule, clauses_of, copy_clause, formula_variables};
use am_term::{Formula, NoMemory};
use am_theory::{Axiom, Theory};
use sqlite_items::Items;
use std::alloc::Global;

/// The rows of a theory's axioms: the clauses of each in order. No memory too where an axiom has more clauses than an
/// axiom of a theory that was read, or so many variables that their numbers might exceed 32 bits.
pub fn theory_rows(alloc: Global, theory: &Theory) -> Result<Vec<Row>, NoMemory>
    ensures { IfOk result (λ rs. rs.items ≡ rows_of_theory theory.now) }
{
    let mut found = Vec::new(alloc);
    add_axioms(alloc, &mut found, theory.axioms.as_slice())?;
    Ok(found)
}

fn add_axioms(alloc: Global, out: &mut Vec<Row>, axioms: &[Axiom]) -> Result<(), NoMemory>
    ensures { OnOk result (out.new.items ≡ out.old.items ++ axiom_rows 1 (map (λ (a : Stated). a.formula) axioms.now)) }
{
    let mut rest = axioms;
    let mut k: u32 = 1;
    while let [axiom, behind @ ..] = rest {
        let clauses = clauses(alloc, &axiom.formula)?;
        add_clauses(alloc, out, k, clauses.as_slice())?;
        k = after(k)?;
        rest = behind;
    }
    Ok(())
}

fn clauses(alloc: Global, formula: &Formula) -> Result<Items<Clause>, NoMemory>
    ensures { IfOk result (λ cs. cs ≡ cnf formula.now) }
{
    if formula_variables(alloc, formula)?.len() >= 4_000_000_000 {
        return Err(NoMemory);
    }
    match clauses_of(alloc, formula) {
        Ok(clauses) => Ok(clauses),
        Err(ClauseFault::NoMemory) => Err(NoMemory),
        Err(ClauseFault::TooManyClauses(_count)) => Err(NoMemory),
    }
}

fn add_clauses(
    alloc: Global,
    out: &mut Vec<Row>,
    k: u32,
    clauses: &[Clause],
) -> Result<(), NoMemory>
    ensures { OnOk result (out.new.items ≡ out.old.items ++ clause_rows_of k 1 clauses.now) }
{
    let mut rest = clauses;
    let mut number: u32 = 1;
    while let [clause, behind @ ..] = rest {
        let rule = Rule::Axiom {
            axiom: k,
            clause: number,
        };
        out.push(Row {
            rule,
            with: Items::new(alloc),
            clause: copy_clause(alloc, clause)?,
        })?;
        number = after(number)?;
        rest = behind;
    }
    Ok(())
}

/// The rows at the start: the axiom rows, the goal, the givens in order.
pub fn first_rows(
    alloc: Global,
    axioms: Vec<Row>,
    goal: Clause,
    givens: &[Clause],
) -> Result<Vec<Row>, NoMemory>
    ensures { IfOk result (λ rs. rs.items ≡ rows_at_first axioms.items goal givens.now) }
{
    let mut found = axioms;
    found.push(Row {
        rule: Rule::Goal,
        with: Items::new(alloc),
        clause: goal,
    })?;
    add_givens(alloc, &mut found, givens)?;
    Ok(found)
}

fn add_givens(alloc: Global, out: &mut Vec<Row>, givens: &[Clause]) -> Result<(), NoMemory>
    ensures { OnOk result (out.new.items ≡ out.old.items ++ given_rows 1 givens.now) }
{
    let mut rest = givens;
    let mut k: u32 = 1;
    while let [clause, behind @ ..] = rest {
        out.push(Row {
            rule: Rule::Given { k },
            with: Items::new(alloc),
            clause: copy_clause(alloc, clause)?,
        })?;
        k = after(k)?;
        rest = behind;
    }
    Ok(())
}

/// So many, as a number that rows can have.
pub fn count(rows: usize) -> Result<u32, NoMemory>
    ensures { IfOk result (λ n. n ≡ rows) }
{
    if rows < 4294967296 {
        return Ok(rows as u32);
    }
    Err(NoMemory)
}
