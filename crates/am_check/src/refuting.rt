ghost use Rattle.std.specs.Prelude.{◌≡◌, ◌↔◌, IfOk, IsTrue};
ghost use Rattle.am_diagram.specs.Facts.{WellFormed as WellDrawn};
ghost use Rattle.am_diagram.specs.Steps.{IsProof};
ghost use Rattle.am_check.specs.Accepted.{EndsEmpty};
ghost use Rattle.am_check.specs.Phases.{is_bare as is_bare_clause, ends_bare};

use crate::proving::{first_bad, last_clause};
use crate::sorting::are_sorted;
use crate::starts::input_sorts;
use am_clause::{Clause, Row};
use am_diagram::Diagram;
use am_term::{Ctx, NoMemory};
use am_theory::Theory;
use std::alloc::Global;

/// Whether rows are a proof over the theory and the diagram: each a step after those before it.
pub fn is_proof(
    alloc: Global,
    theory: &Theory,
    diagram: &Diagram,
    rows: &[Row],
) -> Result<bool, NoMemory>
    requires { WellDrawn theory.now diagram.now }
    ensures { IfOk result (λ b. IsTrue b ↔ IsProof theory.now diagram.now rows.now) }
{
    let sorts = input_sorts(alloc, diagram)?;
    let ctx = Ctx {
        sig: &theory.sig,
        ins: sorts.as_slice(),
    };
    if !are_sorted(&ctx, rows) {
        return Ok(false);
    }
    let bad = first_bad(alloc, theory, diagram, rows)?;
    Ok(bad.is_none())
}

/// Whether the last row has neither literals nor an answer. Takes no memory.
pub fn ends_empty(rows: &[Row]) -> bool
    ensures { IsTrue result ↔ EndsEmpty rows.now }
{
    last_is_bare(rows)
}

fn last_is_bare(rows: &[Row]) -> bool
    ensures { result ≡ ends_bare rows.now }
{
    match last_clause(rows) {
        Some(clause) => is_bare(clause),
        None => false,
    }
}

fn is_bare(clause: &Clause) -> bool
    ensures { result ≡ is_bare_clause clause.now.literals clause.now.answer }
{
    if !clause.literals.is_empty() {
        return false;
    }
    clause.answer.is_none()
}
