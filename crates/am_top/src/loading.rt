ghost use Rattle.std.specs.Prelude.{◌≡◌, ◌≤◌, ℕ, List, MatchResult};
ghost use Rattle.am_top.specs.Answers.{AreBytes, NotLoaded, IsAnswerOf, IsUnread, CountsFaults};

use crate::answer::{Answer, File, Refusal};
use crate::messages::longer;
use am_outside::{Fetched, Library};
use am_term::Name;
use std::alloc::Global;

/// The bytes of a file, at most as many as its limit; else why there are none.
#[tactic(auto, using(crate::proofs::Chains::loading))]
pub fn load<L: Library>(
    alloc: Global,
    library: &mut L,
    file: File,
    limit: usize,
    name: &Name,
) -> Result<Vec<u8>, Answer>
    requires { limit ≤ 16777216 }
    ensures loaded { MatchResult result (λ bytes.
        AreBytes limit (L.told library.old name.now) bytes.items)
        (IsAnswerOf (NotLoaded file limit (L.told library.old name.now) (L.sure library.old name.now))) }
    ensures faults { MatchResult result (λ _. L.faults library.new ≡ L.faults library.old) (λ answer.
        CountsFaults (IsUnread answer) (L.faults library.old) (L.faults library.new)) }
    ensures told { L.told library.new ≡ L.told library.old }
    ensures sure { (n : List ℕ) → L.sure library.old n → L.sure library.new n }
{
    let mut bytes = Vec::new(alloc);
    match library.fetch(name.as_str(), limit, &mut bytes) {
        Fetched::Done => Ok(bytes),
        Fetched::TooLong => {
            let message = longer(alloc, file, limit)?;
            Err(Answer::Refused(Refusal::File, message))
        }
        Fetched::Failed => Err(Answer::Unread(file)),
        Fetched::NoMemory => Err(Answer::NoMemory),
    }
}
