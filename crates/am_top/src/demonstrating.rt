ghost use Rattle.std.specs.Prelude.{◌≡◌, ◌≤◌, MatchResult, IfOk};
ghost use Rattle.am_theory.specs.Facts.{WellFormed as WellFormedTheory};
ghost use Rattle.am_demo.specs.Files.{theory_text, diagram_text};
ghost use Rattle.am_diagram.specs.Facts.{WellFormed};
ghost use Rattle.am_top.specs.Answers.{IsAnswerOf};
ghost use Rattle.am_top.specs.Commands.{Demonstrates, HasTheoryFault, HasDiagramFault, IsSummary};
ghost use Rattle.am_top.specs.Steps.{FromDemo, IsRead, IsDrawnFrom};

use crate::answer::Answer;
use crate::finding::{refuse_diagram, refuse_theory};
use crate::searching::find_log;
use am_agenda::Chooser;
use am_check::last_answer;
use am_clause::Log;
use am_demo::{diagram_file, summary, theory_file};
use am_diagram::{Diagram, diagrams_that_were_read_are_well_formed, read_diagram};
use am_plan::calls;
use am_search::Limits;
use am_term::NoMemory;
use am_theory::{Theory, read_theory, theories_that_were_read_are_well_formed};
use std::alloc::Global;

/// The line that sums a demonstration of size k up, or why there is none. It fetches nothing.
#[tactic(auto, using(crate::proofs::Chains::answering))]
pub fn demonstrate(alloc: Global, k: u32, chooser: Box<dyn Chooser>) -> Result<Vec<u8>, Answer>
    requires { k ≤ 300 }
    ensures { MatchResult result (λ text.
        Demonstrates k (pick_after chooser) (Answer.Text text)) (IsAnswerOf (Demonstrates k (pick_after chooser))) }
{
    let theory = demo_theory(alloc, k)?;
    let diagram = match demo_diagram(alloc, k, &theory) {
        Ok(diagram) => diagram,
        Err(answer) => return Err(answer),
    };
    match sum_up(alloc, k, &theory, &diagram, chooser) {
        Ok(text) => Ok(text),
        Err(answer) => Err(answer),
    }
}

// The theory of a demonstration, or why there is none.
#[tactic(auto, using(crate::proofs::Chains::answering))]
fn demo_theory(alloc: Global, k: u32) -> Result<Theory, Answer>
    requires { k ≤ 300 }
    ensures { MatchResult result (IsRead (theory_text k)) (IsAnswerOf (HasTheoryFault (theory_text k))) }
{
    theories_that_were_read_are_well_formed();
    let text = theory_file(alloc, k)?;
    match read_theory(alloc, text.as_slice()) {
        Ok(theory) => Ok(theory),
        Err(fault) => Err(refuse_theory(alloc, &fault)),
    }
}

// The diagram of a demonstration over its theory, or why there is none.
#[tactic(auto, using(crate::proofs::Chains::answering))]
fn demo_diagram(alloc: Global, k: u32, theory: &Theory) -> Result<Diagram, Answer>
    requires size { k ≤ 300 }
    requires theory { WellFormedTheory theory.now }
    ensures { MatchResult result (IsDrawnFrom theory.now (diagram_text k))
        (IsAnswerOf (HasDiagramFault theory.now (diagram_text k))) }
{
    diagrams_that_were_read_are_well_formed();
    let text = diagram_file(alloc, k)?;
    match read_diagram(alloc, theory, text.as_slice()) {
        Ok(diagram) => Ok(diagram),
        Err(fault) => Err(refuse_diagram(alloc, &fault)),
    }
}

// The line that sums up what the search of a demonstration finds, or why there is none.
#[tactic(auto, using(crate::proofs::Chains::answering))]
fn sum_up(
    alloc: Global,
    k: u32,
    theory: &Theory,
    diagram: &Diagram,
    chooser: Box<dyn Chooser>,
) -> Result<Vec<u8>, Answer>
    requires theory { WellFormedTheory theory.now }
    requires diagram { WellFormed theory.now diagram.now }
    ensures { MatchResult result (λ text.
        FromDemo k (pick_after chooser) theory.now diagram.now (Answer.Text text))
        (IsAnswerOf (FromDemo k (pick_after chooser) theory.now diagram.now)) }
{
    let limits = Limits {
        budget: 5_000,
        weight: 400,
    };
    let found = match find_log(alloc, theory, diagram, limits, chooser) {
        Ok(found) => found,
        Err(answer) => return Err(answer),
    };
    match summed(alloc, k, theory, &found.log, found.inferences) {
        Ok(text) => Ok(text),
        Err(NoMemory) => Err(Answer::NoMemory),
    }
}

// The line of a log that was found after so many inferences; no memory too where it doesn't end in an answer.
#[tactic(auto, using(crate::proofs::Chains::answering))]
fn summed(
    alloc: Global,
    k: u32,
    theory: &Theory,
    log: &Log,
    inferences: usize,
) -> Result<Vec<u8>, NoMemory>
    ensures { IfOk result (λ text. IsSummary theory.now k log.now inferences text.items) }
{
    let Some(answer) = last_answer(log.rows.as_slice()) else {
        return Err(NoMemory);
    };
    let calls = calls(alloc, theory, answer)?;
    let line = summary(alloc, k, inferences, calls.len(), log.rows.len())?;
    Ok(line)
}
