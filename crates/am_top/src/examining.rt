ghost use Rattle.std.specs.Prelude.{◌≡◌, ◌≤◌, length, MatchResult};
ghost use Rattle.am_theory.specs.Facts.{WellFormed as WellFormedTheory};
ghost use Rattle.am_diagram.specs.Facts.{WellFormed};
ghost use Rattle.am_log.specs.Text.{byte_limit as text_limit};
ghost use Rattle.am_top.specs.Answers.{IsAnswerOf, IsUnread, CountsFaults};
ghost use Rattle.am_top.specs.Commands.{Checks};
ghost use Rattle.am_top.specs.Steps.{FromText};

use crate::answer::{Answer, File, Refusal};
use crate::finding::find_files;
use crate::loading::load;
use crate::messages::{accepted_text, refused_message};
use am_check::{Verdict, check};
use am_diagram::Diagram;
use am_outside::Library;
use am_term::Name;
use am_theory::Theory;
use std::alloc::Global;

const TEXT_LIMIT: usize = 16_777_216;

/// That a text is accepted for a diagram over a theory, or why it isn't.
#[tactic(auto, using(crate::proofs::Chains::answering))]
pub fn examine<L: Library>(
    alloc: Global,
    library: &mut L,
    first: &Name,
    second: &Name,
    third: &Name,
) -> Result<Vec<u8>, Answer>
    ensures answer { MatchResult result (λ text.
        Checks (L.told library.old) (L.sure library.old) first.now second.now third.now (Answer.Text text))
        (IsAnswerOf (Checks (L.told library.old) (L.sure library.old) first.now second.now third.now)) }
    ensures faults { MatchResult result (λ _. L.faults library.new ≡ L.faults library.old) (λ answer.
        CountsFaults (IsUnread answer) (L.faults library.old) (L.faults library.new)) }
{
    let files = match find_files(alloc, library, first, second) {
        Ok(files) => files,
        Err(answer) => return Err(answer),
    };
    let text = match load(alloc, library, File::Text, TEXT_LIMIT, third) {
        Ok(text) => text,
        Err(answer) => return Err(answer),
    };
    match examined(alloc, &files.theory, &files.diagram, text.as_slice()) {
        Ok(text) => Ok(text),
        Err(answer) => Err(answer),
    }
}

// That these bytes are accepted, or why they aren't.
#[tactic(auto, using(crate::proofs::Chains::answering))]
fn examined(
    alloc: Global,
    theory: &Theory,
    diagram: &Diagram,
    bytes: &[u8],
) -> Result<Vec<u8>, Answer>
    requires theory { WellFormedTheory theory.now }
    requires diagram { WellFormed theory.now diagram.now }
    requires short { length bytes.now ≤ text_limit }
    ensures { MatchResult result (λ text.
        FromText theory.now diagram.now bytes.now (Answer.Text text))
        (IsAnswerOf (FromText theory.now diagram.now bytes.now)) }
{
    match check(alloc, theory, diagram, bytes)? {
        Verdict::Accepted => Ok(accepted_text(alloc)?),
        Verdict::Refused { line, reason } => {
            let message = refused_message(alloc, line, &reason)?;
            Err(Answer::Refused(Refusal::Text, message))
        }
    }
}
