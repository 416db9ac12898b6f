ghost use Rattle.std.specs.Prelude.{◌≡◌, IfOk, Some, None, Err, drop, map, string_bytes};
ghost use Rattle.am_words.specs.Commands.{make_of, read_as_make};

use crate::command::Command;
use crate::fault::WordsFault;
use crate::line::matches_for;
use crate::value::{name, number_or_default, read_choice};
use std::alloc::Global;

/// The command `make` with these names and values, or none where a value is none.
fn make(
    alloc: Global,
    theory: &str,
    diagram: &str,
    budget: Option<u32>,
    weight: Option<u32>,
    choose: Option<u8>,
) -> Result<Command, WordsFault>
    ensures ok { IfOk result (λ c. make_of theory.now diagram.now budget weight choose ≡ Some c) }
    ensures usage { result ≡ Err WordsFault.Usage → make_of theory.now diagram.now budget weight choose ≡ None }
{
    let (Some(budget), Some(weight), Some(choose)) = (budget, weight, choose) else {
        return Err(WordsFault::Usage);
    };
    let theory = name(alloc, theory)?;
    let diagram = name(alloc, diagram)?;
    Ok(Command::Make {
        theory,
        diagram,
        budget,
        weight,
        choose,
    })
}

/// The command of the words behind `make`.
pub fn read_make(alloc: Global, words: &[String]) -> Result<Command, WordsFault>
    ensures ok { IfOk result (λ c. read_as_make (drop 1 (map string_bytes words.now)) ≡ Some c) }
    ensures usage { result ≡ Err WordsFault.Usage → read_as_make (drop 1 (map string_bytes words.now)) ≡ None }
{
    let matches = matches_for(
        alloc,
        "make",
        &["theory", "diagram"],
        &["budget", "weight", "choose"],
        words,
    )?;
    make(
        alloc,
        matches.get_str("theory").unwrap(),
        matches.get_str("diagram").unwrap(),
        number_or_default(matches.get_str("budget"), 1, 100_000, 5_000),
        number_or_default(matches.get_str("weight"), 10, 400, 200),
        read_choice(matches.get_str("choose")),
    )
}
