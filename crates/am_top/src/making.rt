ghost use Rattle.std.specs.Prelude.{◌≡◌, ◌≤◌, MatchResult};
ghost use Rattle.am_top.specs.Answers.{IsAnswerOf, IsUnread, CountsFaults};
ghost use Rattle.am_top.specs.Commands.{Makes};

use crate::answer::Answer;
use crate::finding::find_files;
use crate::searching::search_text;
use am_agenda::Chooser;
use am_outside::Library;
use am_search::Limits;
use am_term::Name;
use std::alloc::Global;

/// The proof and the subroutine for the diagram and the theory of two files, or why there is none.
#[tactic(auto, using(crate::proofs::Chains::answering))]
pub fn make<L: Library>(
    alloc: Global,
    library: &mut L,
    first: &Name,
    second: &Name,
    limits: Limits,
    chooser: Box<dyn Chooser>,
) -> Result<Vec<u8>, Answer>
    requires some_budget { 1 ≤ limits.budget }
    requires budget { limits.budget ≤ 100000 }
    requires some_weight { 10 ≤ limits.weight }
    requires weight { limits.weight ≤ 400 }
    ensures answer { MatchResult result (λ text.
        Makes (L.told library.old) (L.sure library.old) first.now second.now limits (pick_after chooser)
        (Answer.Text text)) (IsAnswerOf (Makes (L.told library.old) (L.sure library.old) first.now second.now limits
        (pick_after chooser))) }
    ensures faults { MatchResult result (λ _. L.faults library.new ≡ L.faults library.old) (λ answer.
        CountsFaults (IsUnread answer) (L.faults library.old) (L.faults library.new)) }
{
    let files = match find_files(alloc, library, first, second) {
        Ok(files) => files,
        Err(answer) => return Err(answer),
    };
    match search_text(alloc, &files.theory, &files.diagram, limits, chooser) {
        Ok(text) => Ok(text),
        Err(answer) => Err(answer),
    }
}
