ghost use Rattle.std.specs.Prelude.{◌≡◌, MatchResult};
ghost use Rattle.am_top.specs.Answers.{IsAnswerOf, IsUnread, CountsFaults};
ghost use Rattle.am_top.specs.Commands.{Shows};

use crate::answer::Answer;
use crate::finding::find_theory;
use am_canon::write_theory;
use am_outside::Library;
use am_term::Name;
use std::alloc::Global;

/// The canonical text of a theory, or why there is none.
#[tactic(auto, using(crate::proofs::Chains::answering))]
pub fn show<L: Library>(alloc: Global, library: &mut L, name: &Name) -> Result<Vec<u8>, Answer>
    ensures answer { MatchResult result (λ text.
        Shows (L.told library.old) (L.sure library.old) name.now (Answer.Text text))
        (IsAnswerOf (Shows (L.told library.old) (L.sure library.old) name.now)) }
    ensures faults { MatchResult result (λ _. L.faults library.new ≡ L.faults library.old) (λ answer.
        CountsFaults (IsUnread answer) (L.faults library.old) (L.faults library.new)) }
{
    let theory = find_theory(alloc, library, name)?;
    let text = write_theory(alloc, &theory)?;
    Ok(text)
}
