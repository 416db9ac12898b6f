ghost use Rattle.std.specs.Prelude.{◌≡◌, ◌↔◌, ◌≤◌, ◌≢◌, ◌⊎◌, ℕ, length, List, IfOk, IfErr, MatchResult};
ghost use Rattle.am_term.specs.declared.term.Term.{Term};
ghost use Rattle.am_theory.specs.Facts.{WellFormed};
ghost use Rattle.am_diagram.specs.Facts.{WellFormed as WellDrawn};
ghost use Rattle.am_log.specs.Text.{byte_limit};
ghost use Rattle.am_check.specs.Accepted.{Accepted as IsAccepted};
ghost use Rattle.am_check.specs.FirstFault.{IsFirstFault, IsProofOf, IsTextOf, item_line as line_of_item, end_item_number as item_of_end};
ghost use Rattle.am_check.specs.Phases.{Stops, StopsText, IsVerdict, Leaves};
ghost use Rattle.am_check.specs.declared.reason.Reason.{Reason as IsReason};
ghost use Rattle.am_check.specs.declared.reason.Verdict.TheVariants.{Accepted, Refused};

use crate::laws::law_of_refusal;
use crate::lines::{group_line, lines_in};
use crate::proving::proved;
use crate::reason::{Reason, Stop, Verdict};
use am_diagram::Diagram;
use am_exec::{ExecFault, ExecKind, symbolic};
use am_fortran::{Unit, UnitFault, UnitKind, read_unit};
use am_log::proof_length;
use am_term::{NoMemory, Term, same_terms};
use am_theory::Theory;
use std::alloc::Global;

/// Whether a text is a proof with the subroutine that it is of, else its first fault: the line, from 1 over the whole
/// text, and the reason. The phases and their order are this project's own.
pub fn check(
    alloc: Global,
    theory: &Theory,
    diagram: &Diagram,
    text: &[u8],
) -> Result<Verdict, NoMemory>
    requires small { length text.now ≤ byte_limit }
    requires theory { WellFormed theory.now }
    requires diagram { WellDrawn theory.now diagram.now }
    // Accepted exactly where the text is.
    ensures accepted { IfOk result (λ verdict. (verdict ≡ Accepted) ↔ IsAccepted theory.now diagram.now text.now) }
    // Refused for the first fault, at its line.
    ensures refused { IfOk result (λ verdict. (line : ℕ) (reason : IsReason)
        → (verdict ≡ Refused line reason) ↔ IsFirstFault theory.now diagram.now text.now line reason) }
{
    law_of_refusal();
    verdict(alloc, theory, diagram, text)
}

fn verdict(
    alloc: Global,
    theory: &Theory,
    diagram: &Diagram,
    text: &[u8],
) -> Result<Verdict, NoMemory>
    requires small { length text.now ≤ byte_limit }
    requires theory { WellFormed theory.now }
    requires diagram { WellDrawn theory.now diagram.now }
    ensures { IfOk result (IsVerdict theory.now diagram.now text.now) }
{
    match checked(alloc, theory, diagram, text) {
        Ok(()) => Ok(Verdict::Accepted),
        Err(Stop::Memory) => Err(NoMemory),
        Err(Stop::Fault { line, reason }) => Ok(Verdict::Refused { line, reason }),
    }
}

fn checked(alloc: Global, theory: &Theory, diagram: &Diagram, text: &[u8]) -> Result<(), Stop>
    requires small { length text.now ≤ byte_limit }
    requires theory { WellFormed theory.now }
    requires diagram { WellDrawn theory.now diagram.now }
    ensures accepted { IfOk result (λ _. IsAccepted theory.now diagram.now text.now) }
    ensures stopped { IfErr result (StopsText theory.now diagram.now text.now) }
{
    let size = proof_length(text);
    let proof = &text[..size];
    let unit = &text[size..];
    let answer = proved(alloc, theory, diagram, proof)?;
    compared(alloc, theory, diagram, proof, unit, answer.as_slice())
}

/// Whether the unit leaves the answer of the proof in the outputs.
fn compared(
    alloc: Global,
    theory: &Theory,
    diagram: &Diagram,
    proof: &[u8],
    unit: &[u8],
    answer: &[Term],
) -> Result<(), Stop>
    requires small { length proof.now ≤ byte_limit }
    requires small_too { length unit.now ≤ byte_limit }
    requires diagram { WellDrawn theory.now diagram.now }
    requires proved { IsProofOf theory.now diagram.now proof.now answer.now }
    ensures leaves { IfOk result (λ _. Leaves theory.now diagram.now unit.now answer.now) }
    ensures stopped { IfErr result (Stops theory.now diagram.now proof.now unit.now) }
{
    let before = lines_in(proof);
    match read_unit(alloc, unit) {
        Ok(read) => run_compared(alloc, theory, diagram, proof, unit, answer, &read),
        Err(UnitFault { line, kind }) => match kind {
            UnitKind::NoMemory => Err(Stop::Memory),
            kind => Err(Stop::Fault {
                line: before + line,
                reason: Reason::Unit(kind),
            }),
        },
    }
}

fn run_compared(
    alloc: Global,
    theory: &Theory,
    diagram: &Diagram,
    proof: &[u8],
    unit: &[u8],
    answer: &[Term],
    read: &Unit,
) -> Result<(), Stop>
    requires small { length proof.now ≤ byte_limit }
    requires small_too { length unit.now ≤ byte_limit }
    requires proved { IsProofOf theory.now diagram.now proof.now answer.now }
    requires read { IsTextOf unit.now read.now }
    ensures leaves { IfOk result (λ _. Leaves theory.now diagram.now unit.now answer.now) }
    ensures stopped { IfErr result (Stops theory.now diagram.now proof.now unit.now) }
{
    let before = lines_in(proof);
    match symbolic(alloc, theory, diagram, read) {
        Ok(terms) => {
            if same_terms(terms.as_slice(), answer) {
                return Ok(());
            }
            let place = read.declarations.len() + read.statements.len() + 1;
            Err(Stop::Fault {
                line: before + group_line(unit, place),
                reason: Reason::Differs,
            })
        }
        Err(ExecFault { item, kind }) => match kind {
            ExecKind::NoMemory => Err(Stop::Memory),
            kind => Err(Stop::Fault {
                line: before + group_line(unit, (item as usize).saturating_sub(1)),
                reason: Reason::Exec(kind),
            }),
        },
    }
}
