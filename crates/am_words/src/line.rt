ghost use Rattle.std.specs.Prelude.{◌≡◌, ◌≢◌, IfOk, Err, None, [], false, true, drop, map, string_bytes};
ghost use Rattle.clap.specs.Words.{app_of, fault_of, found_of, is_simple_and_free, matches_of, rows_of, rule_of};
ghost use Rattle.am_words.specs.Grammar.{loosely_by};
ghost use Rattle.am_words.specs.Told.{IsReadAs};
ghost use Rattle.am_words.specs.Slots.{command_of, is_sound, command_shape, texts};
ghost use Rattle.am_words.specs.Slots.{app_by, bare_app, flag, name, told, with_names, with_options};

use crate::fault::WordsFault;
use clap::error::ErrorKind;
use clap::{Arg, ArgAction, ArgMatches, Command};
use std::alloc::{AllocError, Global};

/// A name that must be there.
fn name_arg<'a>(alloc: Global, id: &'a str) -> Arg<'a>
    ensures rule { rule_of result ≡ told (name 0 id.now) }
    ensures local { result.global ≡ false }
{
    Arg::new(alloc, id).required(true).action(ArgAction::Set)
}

/// An option with one value.
fn option_arg<'a>(alloc: Global, id: &'a str) -> Arg<'a>
    ensures rule { rule_of result ≡ told (flag id.now) }
    ensures local { result.global ≡ false }
{
    Arg::new(alloc, id).long(id).action(ArgAction::Set)
}

/// The command with these names.
fn name_all<'a>(
    alloc: Global,
    command: Command<'a>,
    names: &'a [&'a str],
) -> Result<Command<'a>, AllocError>
    ensures { IfOk result (λ c. app_of c ≡ with_names (app_of command.entry) (texts names.entry.now)) }
{
    let mut command = command;
    let mut rest = names;
    while let [id, behind @ ..] = rest {
        command = command.arg(name_arg(alloc, id))?;
        rest = behind;
    }
    Ok(command)
}

/// The command with these options.
fn option_all<'a>(
    alloc: Global,
    command: Command<'a>,
    options: &'a [&'a str],
) -> Result<Command<'a>, AllocError>
    ensures { IfOk result (λ c. app_of c ≡ with_options (app_of command.entry) (texts options.entry.now)) }
{
    let mut command = command;
    let mut rest = options;
    while let [id, behind @ ..] = rest {
        command = command.arg(option_arg(alloc, id))?;
        rest = behind;
    }
    Ok(command)
}

/// A command with no argument, and no `--help`.
fn bare<'a>(alloc: Global, program: &'a str) -> Command<'a>
    ensures { app_of result ≡ bare_app program.entry.now }
{
    Command::new(alloc, program).disable_help_flag(true)
}

/// What `clap` is told of a command.
fn command_for<'a>(
    alloc: Global,
    program: &'a str,
    names: &'a [&'a str],
    options: &'a [&'a str],
) -> Result<Command<'a>, AllocError>
    ensures { IfOk result (λ c. app_of c ≡ app_by program.entry.now
        (command_of (texts names.entry.now) (texts options.entry.now))) }
{
    let command = name_all(alloc, bare(alloc, program), names)?;
    option_all(alloc, command, options)
}

/// What `clap` makes of the words.
fn parse<'a>(command: Command<'a>, words: &'a [String]) -> Result<ArgMatches<'a>, WordsFault>
    requires simple { is_simple_and_free (app_of command) ≡ true }
    ensures ok { IfOk result (λ m. fault_of (app_of command.entry) (map string_bytes words.entry.now) ≡ []) }
    ensures rows { IfOk result (λ m.
        rows_of (found_of m) ≡ matches_of (app_of command.entry) (map string_bytes words.entry.now)) }
    ensures usage { result ≡ Err WordsFault.Usage →
        fault_of (app_of command.entry) (map string_bytes words.entry.now) ≢ [] }
{
    match command.try_get_matches_from(words) {
        Ok(matches) => Ok(matches),
        Err(error) => match error.kind() {
            ErrorKind::OutOfMemory => Err(WordsFault::NoMemory),
            _ => Err(WordsFault::Usage),
        },
    }
}

/// The matches of a line of words, whose first is the command's.
pub fn matches_for<'a>(
    alloc: Global,
    program: &'a str,
    names: &'a [&'a str],
    options: &'a [&'a str],
    words: &'a [String],
) -> Result<ArgMatches<'a>, WordsFault>
    requires sound { is_sound (command_of (texts names.now) (texts options.now)) ≡ true }
    requires free { is_simple_and_free (app_by program.now (command_of (texts names.now) (texts options.now))) ≡ true }
    ensures ok { IfOk result (IsReadAs (command_of (texts names.entry.now) (texts options.entry.now))
        (drop 1 (map string_bytes words.entry.now))) }
    ensures usage { result ≡ Err WordsFault.Usage →
        loosely_by (command_shape (command_of (texts names.entry.now) (texts options.entry.now)))
        (drop 1 (map string_bytes words.entry.now)) ≡ None }
{
    match command_for(alloc, program, names, options) {
        Err(_) => Err(WordsFault::NoMemory),
        Ok(command) => parse(command, words),
    }
}
