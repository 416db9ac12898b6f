ghost use Rattle.std.specs.Prelude.{◌≡◌, ◌<◌, Some, length, map, slice_get, string_bytes, MatchResult};
ghost use Rattle.am_words.specs.Commands.{reading};
ghost use Rattle.am_words.specs.Laws.{InRange};
ghost use Rattle.am_top.specs.Answers.{IsAnswerOf, IsUnread, CountsFaults};
ghost use Rattle.am_top.specs.Commands.{Does, HasAnswer};

use crate::answer::Answer;
use crate::demonstrating::demonstrate;
use crate::examining::examine;
use crate::making::make;
use crate::showing::show;
use am_agenda::Chooser;
use am_outside::Library;
use am_search::Limits;
use am_words::{Command, WordsFault, law_of_ranges, read_words};
use std::alloc::Global;

/// What words come to over the files that they name, where these are the choosers.
#[tactic(auto, using(crate::proofs::Chains::answering))]
pub fn answer_words<L: Library>(
    alloc: Global,
    words: &[String],
    library: &mut L,
    choosers: Vec<Box<dyn Chooser>>,
) -> Answer
    requires { length choosers.items ≡ 3 }
    ensures answer { HasAnswer (L.told library.old) (L.sure library.old) (map pick_after choosers.items)
        (reading (map string_bytes words.now)) result }
    ensures faults { CountsFaults (IsUnread result) (L.faults library.old) (L.faults library.new) }
{
    law_of_ranges();
    match read_words(alloc, words) {
        Ok(command) => match answer_command(alloc, &command, library, choosers) {
            Ok(text) => Answer::Text(text),
            Err(answer) => answer,
        },
        Err(WordsFault::Usage) => Answer::Usage,
        Err(WordsFault::NoMemory) => Answer::NoMemory,
    }
}

// The text of a command, or why there is none.
#[tactic(auto, using(crate::proofs::Chains::answering))]
fn answer_command<L: Library>(
    alloc: Global,
    command: &Command,
    library: &mut L,
    choosers: Vec<Box<dyn Chooser>>,
) -> Result<Vec<u8>, Answer>
    requires choosers { length choosers.items ≡ 3 }
    requires ranges { InRange command.now }
    ensures answer { MatchResult result (λ text.
        Does (L.told library.old) (L.sure library.old) (map pick_after choosers.items) command.now (Answer.Text text))
        (IsAnswerOf (Does (L.told library.old) (L.sure library.old) (map pick_after choosers.items) command.now)) }
    ensures faults { MatchResult result (λ _. L.faults library.new ≡ L.faults library.old) (λ answer.
        CountsFaults (IsUnread answer) (L.faults library.old) (L.faults library.new)) }
{
    match command {
        Command::Make {
            theory,
            diagram,
            budget,
            weight,
            choose,
        } => {
            let limits = Limits {
                budget: *budget,
                weight: *weight,
            };
            let chooser = take_chooser(choosers, *choose);
            make(alloc, library, theory, diagram, limits, chooser)
        }
        Command::Check {
            theory,
            diagram,
            text,
        } => examine(alloc, library, theory, diagram, text),
        Command::Theory { theory } => show(alloc, library, theory),
        Command::Demo { k } => demonstrate(alloc, *k, take_chooser(choosers, 0)),
    }
}

// The chooser at a place; the others are dropped.
fn take_chooser(mut choosers: Vec<Box<dyn Chooser>>, place: u8) -> Box<dyn Chooser>
    requires { place < length choosers.items }
    ensures { slice_get choosers.items place ≡ Some result }
{
    choosers.swap_remove(place as usize)
}
