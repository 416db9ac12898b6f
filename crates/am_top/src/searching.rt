ghost use Rattle.std.specs.Prelude.{◌≡◌, ◌≤◌, MatchResult};
ghost use Rattle.am_theory.specs.Facts.{WellFormed as WellFormedTheory};
ghost use Rattle.am_diagram.specs.Facts.{WellFormed};
ghost use Rattle.am_top.specs.Answers.{IsAnswerOf};
ghost use Rattle.am_top.specs.Commands.{ProductOf};
ghost use Rattle.am_top.specs.Steps.{FoundLog, NoLog, FromDiagram};

use crate::answer::{Answer, Refusal};
use crate::messages::{contradiction_message, exhausted_message, long_message, spent_message};
use am_agenda::Chooser;
use am_clause::Log;
use am_diagram::Diagram;
use am_product::{Product, product, refute};
use am_search::{Limits, Outcome, search};
use am_theory::Theory;
use std::alloc::Global;

/// The log that a search found, and how many inferences were made.
#[derive(Drop)]
pub struct Finding {
    pub log: Log,
    pub inferences: usize,
}

const TEXT_LIMIT: usize = 16_777_216;

/// What a search finds, or how it ended else.
#[tactic(auto, using(crate::proofs::Chains::answering))]
pub fn find_log(
    alloc: Global,
    theory: &Theory,
    diagram: &Diagram,
    limits: Limits,
    chooser: Box<dyn Chooser>,
) -> Result<Finding, Answer>
    requires some_budget { 1 ≤ limits.budget }
    requires budget { limits.budget ≤ 100000 }
    requires some_weight { 10 ≤ limits.weight }
    requires weight { limits.weight ≤ 400 }
    requires theory { WellFormedTheory theory.now }
    requires diagram { WellFormed theory.now diagram.now }
    ensures { MatchResult result (λ f.
        FoundLog theory.now diagram.now limits (pick_after chooser) f.log f.inferences)
        (NoLog theory.now diagram.now limits (pick_after chooser)) }
{
    match search(alloc, theory, diagram, limits, chooser)? {
        Outcome::Found { log, entries, .. } => Ok(Finding {
            log,
            inferences: entries.len(),
        }),
        Outcome::Spent { .. } => {
            let message = spent_message(alloc, limits.budget)?;
            Err(Answer::Refused(Refusal::Spent, message))
        }
        Outcome::Exhausted { entries, .. } => {
            let message = exhausted_message(alloc, entries.len())?;
            Err(Answer::Refused(Refusal::Exhausted, message))
        }
        Outcome::Contradiction { log, entries, .. } => {
            refute(alloc, theory, diagram, &log)?;
            let message = contradiction_message(alloc, entries.len())?;
            Err(Answer::Refused(Refusal::Contradiction, message))
        }
    }
}

/// The product of what a search finds, or why there is none.
#[tactic(auto, using(crate::proofs::Chains::answering))]
pub fn search_text(
    alloc: Global,
    theory: &Theory,
    diagram: &Diagram,
    limits: Limits,
    chooser: Box<dyn Chooser>,
) -> Result<Vec<u8>, Answer>
    requires some_budget { 1 ≤ limits.budget }
    requires budget { limits.budget ≤ 100000 }
    requires some_weight { 10 ≤ limits.weight }
    requires weight { limits.weight ≤ 400 }
    requires theory { WellFormedTheory theory.now }
    requires diagram { WellFormed theory.now diagram.now }
    ensures { MatchResult result (λ text.
        FromDiagram limits (pick_after chooser) theory.now diagram.now (Answer.Text text))
        (IsAnswerOf (FromDiagram limits (pick_after chooser) theory.now diagram.now)) }
{
    let found = match find_log(alloc, theory, diagram, limits, chooser) {
        Ok(found) => found,
        Err(answer) => return Err(answer),
    };
    match product_text(alloc, theory, diagram, &found.log) {
        Ok(text) => Ok(text),
        Err(answer) => Err(answer),
    }
}

// The product of a log, or that it is too long.
#[tactic(auto, using(crate::proofs::Chains::answering))]
fn product_text(
    alloc: Global,
    theory: &Theory,
    diagram: &Diagram,
    log: &Log,
) -> Result<Vec<u8>, Answer>
    requires theory { WellFormedTheory theory.now }
    requires diagram { WellFormed theory.now diagram.now }
    ensures { MatchResult result (λ text.
        ProductOf theory.now diagram.now log.now (Answer.Text text))
        (IsAnswerOf (ProductOf theory.now diagram.now log.now)) }
{
    match product(alloc, theory, diagram, log)? {
        Product::Text(text) => Ok(text),
        Product::Long => {
            let message = long_message(alloc, TEXT_LIMIT)?;
            Err(Answer::Refused(Refusal::Long, message))
        }
    }
}
