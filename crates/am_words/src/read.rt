ghost use Rattle.std.specs.Prelude.{◌≡◌, IfOk, Some, None, Err, drop, map, string_bytes};
ghost use Rattle.am_words.specs.Commands.{read_as_check, read_as_theory, read_as_demo, reading};

use crate::command::Command;
use crate::fault::WordsFault;
use crate::line::matches_for;
use crate::making::read_make;
use crate::value::{name, read_number};
use std::alloc::Global;

/// The command of the words behind `check`.
fn read_check(alloc: Global, words: &[String]) -> Result<Command, WordsFault>
    ensures ok { IfOk result (λ c. read_as_check (drop 1 (map string_bytes words.now)) ≡ Some c) }
    ensures usage { result ≡ Err WordsFault.Usage → read_as_check (drop 1 (map string_bytes words.now)) ≡ None }
{
    let matches = matches_for(alloc, "check", &["theory", "diagram", "text"], &[], words)?;
    let theory = name(alloc, matches.get_str("theory").unwrap())?;
    let diagram = name(alloc, matches.get_str("diagram").unwrap())?;
    let text = name(alloc, matches.get_str("text").unwrap())?;
    Ok(Command::Check {
        theory,
        diagram,
        text,
    })
}

/// The command of the words behind `theory`.
fn read_theory(alloc: Global, words: &[String]) -> Result<Command, WordsFault>
    ensures ok { IfOk result (λ c. read_as_theory (drop 1 (map string_bytes words.now)) ≡ Some c) }
    ensures usage { result ≡ Err WordsFault.Usage → read_as_theory (drop 1 (map string_bytes words.now)) ≡ None }
{
    let matches = matches_for(alloc, "theory", &["theory"], &[], words)?;
    let theory = name(alloc, matches.get_str("theory").unwrap())?;
    Ok(Command::Theory { theory })
}

/// The command of the words behind `demo`.
fn read_demo(alloc: Global, words: &[String]) -> Result<Command, WordsFault>
    ensures ok { IfOk result (λ c. read_as_demo (drop 1 (map string_bytes words.now)) ≡ Some c) }
    ensures usage { result ≡ Err WordsFault.Usage → read_as_demo (drop 1 (map string_bytes words.now)) ≡ None }
{
    let matches = matches_for(alloc, "demo", &["k"], &[], words)?;
    match read_number(matches.get_str("k").unwrap(), 1, 300) {
        None => Err(WordsFault::Usage),
        Some(k) => Ok(Command::Demo { k }),
    }
}

/// The command that words ask for: `make`, `check`, `theory` or `demo` as the first, then its names
/// and options, in which numbers are one to nine decimal digits. The grammar is this project's own.
/// Where there is no such reading, this is `Usage`.
pub fn read_words(alloc: Global, words: &[String]) -> Result<Command, WordsFault>
    ensures ok { IfOk result (λ c. reading (map string_bytes words.now) ≡ Some c) }
    ensures usage { result ≡ Err WordsFault.Usage → reading (map string_bytes words.now) ≡ None }
{
    let [first, ..] = words else {
        return Err(WordsFault::Usage);
    };
    match first.as_str() {
        "make" => read_make(alloc, words),
        "check" => read_check(alloc, words),
        "theory" => read_theory(alloc, words),
        "demo" => read_demo(alloc, words),
        _ => Err(WordsFault::Usage),
    }
}
