//! Searches: each part of standard input is a theory, a diagram or a case, each line of standard output the answer to a
//! case, worked out by hand.
//!
//! A line that begins with `|` goes on with the part before it, and is a line of its text; src/notation.rt says what
//! stands for what is hard to see. Any other line begins a part: `theory` and `diagram` are read for the cases behind
//! them; `search BUDGET WEIGHT CHOOSER` searches with these limits and a chooser: `weight`, `age`, `mixed`, `last`,
//! which picks the last place, or `noting`, which goes by weight and tells what it was shown. Its answer has the end,
//! the number of inferences, the rows that were chosen, the fate of each inferred row, the number of rows of the log,
//! and, for `noting`, each list of rows that waited, as NUMBER:WEIGHT; `pick CHOOSER TIMES NUMBER:WEIGHT ..` asks a
//! chooser so many times for these rows, and its answer has the numbers of those that were picked. A line that begins
//! with `#` is printed as it is.
#![tactic(auto)]

mod answers;
mod choosers;
mod notation;
mod picking;
mod spelling;

use am_agenda::{ByAge, ByWeight, Chooser, Mixed};
use am_search::Limits;
use am_term::NoMemory;
use answers::search_answer;
use choosers::{Last, Noting};
use notation::push_line;
use picking::pick_answer;
use std::alloc::Global;
use std::cell::RefCell;
use std::io::{self, BufRead, BufReader};
use std::rc::Rc;

/// The texts of the theory and the diagram that stand.
#[derive(Drop)]
struct Files {
    theory: Vec<u8>,
    diagram: Vec<u8>,
}

// The limits and the word for the chooser of a case, if the line is one.
fn case_of(part: &str) -> Option<(Limits, &str)> {
    let behind = part.strip_prefix("search ")?;
    let (budget, behind) = behind.split_once(' ')?;
    let (weight, chooser) = behind.split_once(' ')?;
    let Ok(budget) = budget.parse::<u32>() else {
        return None;
    };
    let Ok(weight) = weight.parse::<u32>() else {
        return None;
    };
    Some((Limits { budget, weight }, chooser))
}

// The answer of a search with the chooser of a word.
fn searched(alloc: Global, files: &Files, limits: Limits, word: &str) -> Result<String, NoMemory> {
    let theory = files.theory.as_slice();
    let diagram = files.diagram.as_slice();
    match word {
        "age" => {
            let chooser: Box<dyn Chooser> = Box::new(alloc, ByAge::new())?;
            search_answer(alloc, theory, diagram, limits, chooser)
        }
        "mixed" => {
            let chooser: Box<dyn Chooser> = Box::new(alloc, Mixed::new())?;
            search_answer(alloc, theory, diagram, limits, chooser)
        }
        "last" => {
            let chooser: Box<dyn Chooser> = Box::new(alloc, Last {})?;
            search_answer(alloc, theory, diagram, limits, chooser)
        }
        "noting" => noted_answer(alloc, theory, diagram, limits),
        _ => {
            let chooser: Box<dyn Chooser> = Box::new(alloc, ByWeight::new())?;
            search_answer(alloc, theory, diagram, limits, chooser)
        }
    }
}

fn print_answer(rt: &impl Print, answer: Result<String, NoMemory>) -> io::Result<()> {
    match answer {
        Ok(answer) => println!(rt; "{answer}"),
        Err(NoMemory) => println!(rt; "no memory"),
    }
}

// The answer by weight, and the lists of rows that the chooser was shown.
fn noted_answer(
    alloc: Global,
    theory: &[u8],
    diagram: &[u8],
    limits: Limits,
) -> Result<String, NoMemory> {
    let notes = Rc::new(alloc, RefCell::new(String::new(alloc)))?;
    let shown = Rc::clone(&notes)?;
    let chooser: Box<dyn Chooser> = Box::new(alloc, Noting { notes: shown })?;
    let mut answer = search_answer(alloc, theory, diagram, limits, chooser)?;
    if let Ok(notes) = notes.try_borrow() {
        answer.push_str("; shown")?;
        answer.push_str(notes.as_str())?;
    }
    Ok(answer)
}

// Takes a part of the input in, and prints its answer if it is a case.
fn finish(
    rt: &impl Print,
    alloc: Global,
    files: &mut Files,
    part: &str,
    text: &[u8],
) -> io::Result<()> {
    match part {
        "theory" => {
            files.theory.clear();
            files.theory.extend_from_slice(text)?;
            Ok(())
        }
        "diagram" => {
            files.diagram.clear();
            files.diagram.extend_from_slice(text)?;
            Ok(())
        }
        _ => {
            if let Some((limits, word)) = case_of(part) {
                print_answer(rt, searched(alloc, files, limits, word))?;
            }
            if let Some(words) = part.strip_prefix("pick ") {
                print_answer(rt, pick_answer(alloc, words))?;
            }
            Ok(())
        }
    }
}

fn main(rt: HostRuntime) -> io::Result<()> {
    let alloc = rt.alloc();
    let mut files = Files {
        theory: Vec::new(alloc),
        diagram: Vec::new(alloc),
    };
    let mut part = String::new(alloc);
    let mut text = Vec::new(alloc);
    for line in BufReader::new(alloc, rt.reader())?.lines(alloc) {
        let line = line?;
        if let Some(more) = line.strip_prefix('|') {
            if push_line(&mut text, more).is_err() {
                return println!(rt; "no memory");
            }
            continue;
        }
        finish(&rt, alloc, &mut files, part.as_str(), text.as_slice())?;
        text.clear();
        if line.starts_with('#') {
            println!(rt; "{line}")?;
        }
        part = line;
    }
    finish(&rt, alloc, &mut files, part.as_str(), text.as_slice())
}
