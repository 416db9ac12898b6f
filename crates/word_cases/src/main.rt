//! Reads lines of words: each line of standard input that begins with `>` is a case, each line of
//! standard output its reading, worked out by hand.
//!
//! The words of a case stand behind `>`, a blank before each. In a word `\s` stands for a blank and
//! `\e` for nothing, so that `\e` by itself is the empty word. Names are printed in brackets. Any other
//! line is printed as it is.
#![tactic(auto)]

use am_term::NoMemory;
use am_words::{Command, WordsFault, read_words};
use std::alloc::{AllocError, Global};
use std::io::{self, BufRead, BufReader};

// The word that is spelled so.
fn word_of(alloc: Global, spelled: &str) -> Result<String, NoMemory> {
    let mut word = String::new(alloc);
    for (i, part) in spelled.split('\\').enumerate() {
        if i == 0 {
            word.push_str(part)?;
        } else if let Some(behind) = part.strip_prefix('s') {
            word.push(' ')?;
            word.push_str(behind)?;
        } else if let Some(behind) = part.strip_prefix('e') {
            word.push_str(behind)?;
        }
    }
    Ok(word)
}

// The words of a case.
fn words_of(alloc: Global, line: &str) -> Result<Vec<String>, NoMemory> {
    let mut words = Vec::new(alloc);
    for (i, spelled) in line.split(' ').enumerate() {
        if i > 0 {
            words.push(word_of(alloc, spelled)?)?;
        }
    }
    Ok(words)
}

// A command, as one line.
fn shown(alloc: Global, command: &Command) -> Result<String, AllocError> {
    match command {
        Command::Make {
            theory,
            diagram,
            budget,
            weight,
            choose,
        } => format!(in alloc;
            "make [{}] [{}] budget {budget} weight {weight} choose {choose}",
            theory.as_str(),
            diagram.as_str()
        ),
        Command::Check {
            theory,
            diagram,
            text,
        } => format!(in alloc;
            "check [{}] [{}] [{}]",
            theory.as_str(),
            diagram.as_str(),
            text.as_str()
        ),
        Command::Theory { theory } => format!(in alloc; "theory [{}]", theory.as_str()),
        Command::Demo { k } => format!(in alloc; "demo {k}"),
    }
}

// The reading of a case.
fn answer(alloc: Global, line: &str) -> Result<String, NoMemory> {
    let words = words_of(alloc, line)?;
    match read_words(alloc, words.as_slice()) {
        Ok(command) => Ok(shown(alloc, &command)?),
        Err(WordsFault::Usage) => Ok(String::from_str(alloc, "usage")?),
        Err(WordsFault::NoMemory) => Err(NoMemory),
    }
}

fn main(rt: HostRuntime) -> io::Result<()> {
    let alloc = rt.alloc();
    for line in BufReader::new(alloc, rt.reader())?.lines(alloc) {
        let line = line?;
        if !line.starts_with('>') {
            println!(rt; "{line}")?;
            continue;
        }
        match answer(alloc, &line) {
            Ok(text) => println!(rt; "{text}")?,
            Err(NoMemory) => return println!(rt; "no memory"),
        }
    }
    Ok(())
}
