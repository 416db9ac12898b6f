//! Reads texts of logs: each part of standard input is a theory, a diagram or a case, each line of
//! standard output the answer to a case, worked out by hand.
//!
//! A line that begins with `|` goes on with the part before it, and is a line of its text; src/notation.rt
//! says what stands for what is hard to see. Any other line begins a part: `theory` and `diagram` are
//! read for the cases behind them; `log` is a text that is read as a log, and is written again where it
//! is one; `split` is a text whose proof part is measured. A line that begins with `#` is printed as it
//! is.
#![tactic(auto)]

mod answers;
mod notation;

use am_term::NoMemory;
use answers::{log_answer, split_answer};
use notation::push_line;
use std::alloc::Global;
use std::io::{self, BufRead, BufReader};

/// The texts of the theory and the diagram that stand.
#[derive(Drop)]
struct Files {
    theory: Vec<u8>,
    diagram: Vec<u8>,
}

// The answer to a part of the input, if it is a case.
fn finish(
    alloc: Global,
    files: &mut Files,
    part: &str,
    text: &[u8],
) -> Result<Option<String>, NoMemory> {
    match part {
        "theory" => {
            files.theory.clear();
            files.theory.extend_from_slice(text)?;
            Ok(None)
        }
        "diagram" => {
            files.diagram.clear();
            files.diagram.extend_from_slice(text)?;
            Ok(None)
        }
        "log" => {
            let theory = files.theory.as_slice();
            let diagram = files.diagram.as_slice();
            Ok(Some(log_answer(alloc, theory, diagram, text)?))
        }
        "split" => Ok(Some(split_answer(alloc, text)?)),
        _ => Ok(None),
    }
}

// Prints the answer to a part of the input, if it is a case.
fn print_answer(
    rt: &impl Print,
    alloc: Global,
    files: &mut Files,
    part: &str,
    text: &[u8],
) -> io::Result<()> {
    match finish(alloc, files, part, text) {
        Ok(Some(answer)) => println!(rt; "{answer}"),
        Ok(None) => Ok(()),
        Err(NoMemory) => println!(rt; "no memory"),
    }
}

fn main(rt: HostRuntime) -> io::Result<()> {
    let alloc = rt.alloc();
    let mut files = Files {
        theory: Vec::new(alloc),
        diagram: Vec::new(alloc),
    };
    let mut part = String::new(alloc);
    let mut text = Vec::new(alloc);
    for line in BufReader::new(alloc, rt.reader())?.lines(alloc) {
        let line = line?;
        if let Some(more) = line.strip_prefix('|') {
            if push_line(&mut text, more).is_err() {
                return println!(rt; "no memory");
            }
            continue;
        }
        print_answer(&rt, alloc, &mut files, part.as_str(), text.as_slice())?;
        text.clear();
        if line.starts_with('#') {
            println!(rt; "{line}")?;
        }
        part = line;
    }
    print_answer(&rt, alloc, &mut files, part.as_str(), text.as_slice())
}
