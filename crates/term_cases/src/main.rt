//! Answers cases of terms, clauses, unification and the order: each line of standard input is a call and
//! what it is made with, each line of standard output its answer.
//!
//! The file `stdin` says which calls there are, and the file `stdout` has answers worked out by hand. A
//! line that begins with `#` is passed over, and one that begins with `over` declares the symbols of the
//! cases behind it.
#![tactic(auto)]

mod calls;
mod clausal;
mod reader;
mod signature;
mod solving;
mod spelling;
mod writer;

use am_term::{NoMemory, Signature};
use signature::signature_of;
use spelling::forms_of;
use std::alloc::Global;
use std::io::{self, BufRead, BufReader};

/// What a call gives that writes part of an answer.
type Done = Result<(), NoMemory>;

// The answer to a case, over a signature; the signature itself is that of the latest line `over`.
fn answered(alloc: Global, sig: Signature, line: &str) -> Result<(Signature, String), NoMemory> {
    let forms = forms_of(alloc, line)?;
    if line.starts_with("over") {
        return Ok((signature_of(alloc, forms.as_slice())?, String::new(alloc)));
    }
    let text = calls::answer(alloc, &sig, forms.as_slice())?;
    Ok((sig, text))
}

fn main(rt: HostRuntime) -> io::Result<()> {
    let alloc = rt.alloc();
    let Ok(mut sig) = signature_of(alloc, &[]) else {
        return println!(rt; "no memory");
    };
    for line in BufReader::new(alloc, rt.reader())?.lines(alloc) {
        let line = line?;
        if line.is_empty() || line.starts_with('#') {
            continue;
        }
        match answered(alloc, sig, &line) {
            Ok((next, text)) => {
                sig = next;
                if !text.is_empty() {
                    println!(rt; "{text}")?;
                }
            }
            Err(NoMemory) => return println!(rt; "no memory"),
        }
    }
    Ok(())
}
