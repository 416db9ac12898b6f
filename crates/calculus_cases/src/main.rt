//! Answers cases of rules of inference, of rewriting and of dropping: each line of standard input is a call and what it
//! is made with, each line of standard output its answer.
//!
//! The file `stdin` says which calls there are, and the file `stdout` has answers worked out by hand. A line that
//! begins with `#` is passed over, one that begins with `over` declares the symbols of the cases behind it, and one
//! that begins with `row` has a row that they are answered with.
#![tactic(auto)]

mod answering;
mod inferring;
mod reader;
mod signature;
mod spelling;
mod writer;

use am_clause::Clause;
use am_term::{NoMemory, Signature};
use reader::Reader;
use signature::signature_of;
use spelling::{forms_of, members, number, word};
use sqlite_items::Items;
use std::alloc::Global;
use std::io::{self, BufRead, BufReader};

/// What a call gives that writes part of an answer.
type Done = Result<(), NoMemory>;

// The rows, with one more if the line has one; and what the line answers.
fn answered(
    alloc: Global,
    sig: Signature,
    rows: Items<(u32, Clause)>,
    line: &str,
) -> Result<(Signature, Items<(u32, Clause)>, String), NoMemory> {
    let forms = forms_of(alloc, line)?;
    let forms = forms.as_slice();
    match forms {
        [head, symbols @ ..] if word(head) == "over" => Ok((
            signature_of(alloc, symbols)?,
            Items::new(alloc),
            String::new(alloc),
        )),
        [head, place, clause] if word(head) == "row" => {
            let row = Reader { alloc, sig: &sig }.clause(members(clause))?;
            let mut rows = rows;
            rows.push((number(place), row))?;
            Ok((sig, rows, String::new(alloc)))
        }
        _ => {
            let text = answering::answer(alloc, &sig, rows.as_slice(), forms)?;
            Ok((sig, rows, text))
        }
    }
}

fn main(rt: HostRuntime) -> io::Result<()> {
    let alloc = rt.alloc();
    let Ok(mut sig) = signature_of(alloc, &[]) else {
        return println!(rt; "no memory");
    };
    let mut rows = Items::new(alloc);
    for line in BufReader::new(alloc, rt.reader())?.lines(alloc) {
        let line = line?;
        if line.is_empty() || line.starts_with('#') {
            continue;
        }
        match answered(alloc, sig, rows, &line) {
            Ok((next, kept, text)) => {
                sig = next;
                rows = kept;
                if !text.is_empty() {
                    println!(rt; "{text}")?;
                }
            }
            Err(NoMemory) => return println!(rt; "no memory"),
        }
    }
    Ok(())
}
