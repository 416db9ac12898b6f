ghost use Rattle.std.specs.Prelude.{◌≡◌, ◌≤◌, length, IfOk, IfErr, MatchOption, option_copied};
ghost use Rattle.am_clause.specs.Steps.{clause_at};
ghost use Rattle.am_calculus.specs.Faults.{first_fault};
ghost use Rattle.am_diagram.specs.declared.diagram.Diagram.{Diagram};
ghost use Rattle.am_theory.specs.Facts.{WellFormed};
ghost use Rattle.am_diagram.specs.Facts.{WellFormed as WellDrawn};
ghost use Rattle.am_diagram.specs.Listed.{entry_sorts};
ghost use Rattle.am_diagram.specs.Steps.{IsProof, sources};
ghost use Rattle.am_log.specs.Text.{byte_limit};
ghost use Rattle.am_check.specs.Accepted.{bare_answer, final_answer};
ghost use Rattle.am_check.specs.FirstFault.{IsFirstBad, IsLog, IsProofOf};
ghost use Rattle.am_check.specs.Phases.{of_step, AreSorted, IsOrigin, StopsAlways};

use crate::lines::row_line;
use crate::reason::{Reason, Stop};
use crate::starts::{Origin, origin_of};
use am_calculus::{Starts, StepFault, row_clause, step_fault};
use am_clause::{Clause, Log, Row};
use am_diagram::Diagram;
use am_log::{LogFault, LogKind, read_log};
use am_term::{Ctx, NoMemory, Term, copies};
use am_theory::Theory;
use sqlite_items::Items;
use std::alloc::Global;

/// The answer of the proof that a proof part is, or its first fault.
pub fn proved(
    alloc: Global,
    theory: &Theory,
    diagram: &Diagram,
    proof: &[u8],
) -> Result<Items<Term>, Stop>
    requires small { length proof.now ≤ byte_limit }
    requires theory { WellFormed theory.now }
    requires diagram { WellDrawn theory.now diagram.now }
    ensures found { IfOk result (λ answer. IsProofOf theory.now diagram.now proof.now answer) }
    ensures fault { IfErr result (StopsAlways theory.now diagram.now proof.now) }
{
    let log = logged(alloc, theory, diagram, proof)?;
    let rows = log.rows.as_slice();
    if let Some((place, fault)) = first_bad(alloc, theory, diagram, rows)? {
        return Err(Stop::Fault {
            line: row_line(proof, place + 1),
            reason: reason_of(fault),
        });
    }
    match last_answer(rows) {
        Some(answer) => Ok(copies(alloc, answer)?),
        None => Err(Stop::Fault {
            line: row_line(proof, rows.len()),
            reason: Reason::NotFinal,
        }),
    }
}

/// The log whose text a proof part is.
fn logged(alloc: Global, theory: &Theory, diagram: &Diagram, proof: &[u8]) -> Result<Log, Stop>
    requires small { length proof.now ≤ byte_limit }
    requires theory { WellFormed theory.now }
    requires diagram { WellDrawn theory.now diagram.now }
    ensures found { IfOk result (λ log. IsLog theory.now diagram.now proof.now log) }
    ensures fault { IfErr result (StopsAlways theory.now diagram.now proof.now) }
{
    match read_log(alloc, theory, diagram, proof) {
        Ok(log) => Ok(log),
        Err(LogFault { line, kind }) => match kind {
            LogKind::NoMemory => Err(Stop::Memory),
            kind => Err(Stop::Fault {
                line,
                reason: Reason::Log(kind),
            }),
        },
    }
}

/// The place, from 0, of the first row that is no step after those before it, and its first cause.
pub fn first_bad(
    alloc: Global,
    theory: &Theory,
    diagram: &Diagram,
    rows: &[Row],
) -> Result<Option<(usize, StepFault)>, NoMemory>
    requires diagram { WellDrawn theory.now diagram.now }
    requires sorted { AreSorted theory.now diagram.now rows.now }
    ensures { IfOk result (λ bad. MatchOption bad (IsProof theory.now diagram.now rows.now) (λ b.
        IsFirstBad theory.now diagram.now rows.now b.0 b.1)) }
{
    let origin = origin_of(alloc, theory, diagram)?;
    for (place, row) in rows.iter().enumerate() {
        if let Some(fault) = row_fault(alloc, theory, &origin, &rows[..place], row)? {
            return Ok(Some((place, fault)));
        }
    }
    Ok(None)
}

/// The first cause why a row is no step after those before it.
fn row_fault(
    alloc: Global,
    theory: &Theory,
    origin: &Origin,
    before: &[Row],
    row: &Row,
) -> Result<Option<StepFault>, NoMemory>
    ensures { (d : Diagram) → IsOrigin theory.now d origin.now
        → IfOk result (λ f. f ≡ first_fault theory.now.sig (entry_sorts d.inputs)
        (sources theory.now d) before.now row.now) }
{
    let ctx = Ctx {
        sig: &theory.sig,
        ins: origin.sorts.as_slice(),
    };
    let starts = Starts {
        axioms: origin.axioms.as_slice(),
        goal: &origin.goal,
        givens: origin.givens.as_slice(),
    };
    step_fault(alloc, &ctx, &starts, before, row)
}

/// The answer of the last row, where there is one without literals. Takes no memory.
pub fn last_answer(rows: &[Row]) -> Option<&[Term]>
    ensures { option_copied result ≡ final_answer rows.now }
{
    match last_clause(rows) {
        Some(clause) => closing_answer(clause),
        None => None,
    }
}

fn closing_answer(clause: &Clause) -> Option<&[Term]>
    ensures { option_copied result ≡ bare_answer clause.now.literals clause.now.answer }
{
    if !clause.literals.is_empty() {
        return None;
    }
    match &clause.answer {
        Some(terms) => Some(terms.as_slice()),
        None => None,
    }
}

/// The clause of the last row.
pub fn last_clause(rows: &[Row]) -> Option<&Clause>
    ensures { option_copied result ≡ clause_at rows.now (length rows.now) }
{
    if rows.is_empty() {
        return None;
    }
    match sqlite_items::at(rows, rows.len() - 1) {
        Some(row) => Some(&row.clause),
        None => None,
    }
}

/// The reason that a row is no step, as a reason of the check.
fn reason_of(fault: StepFault) -> Reason
    ensures { result ≡ of_step fault }
{
    match fault {
        StepFault::NoSuchParent => Reason::NoSuchParent,
        StepFault::BadPlace => Reason::BadPlace,
        StepFault::BadBindings => Reason::BadBindings,
        StepFault::NotEqual => Reason::NotEqual,
        StepFault::AnswersDiffer => Reason::AnswersDiffer,
        StepFault::WrongConclusion => Reason::WrongConclusion,
    }
}
