//! The program `amphion`: it hands its words, the file system, its two streams, three choosers and an interpretation
//! to `run`, and ends with the status as its exit code.
//!
//! What a text that it prints means is said by the contract of `am_top::run`.
#![tactic(auto)]

use am_agenda::{ByAge, ByWeight, Chooser, Mixed};
use am_outside::{Folder, Library, Put, Sink, StdErr, StdOut};
use am_term::NoMemory;
use am_top::{Status, run};
use am_world::TrivialWorld;
use std::alloc::{AllocGlobal, Global};
use std::process::ExitCode;
use std::rt::Env;
use std::{env, io};

fn main(rt: HostRuntime) -> ExitCode {
    let alloc = rt.alloc();
    let mut err = StdErr::new(rt.stderr());
    let words = match words_of(&rt, alloc) {
        Ok(words) => words,
        Err(error) => match error.kind() {
            io::ErrorKind::OutOfMemory => return give_up(&mut err),
            // A word that is no UTF-8 has no reading, and no more have no words.
            _ => Vec::new(alloc),
        },
    };
    let mut library = Folder::new(&rt);
    let mut out = StdOut::new(rt.stdout());
    match carry_out(alloc, words.as_slice(), &mut library, &mut out, &mut err) {
        Ok(status) => ExitCode::from(status.code()),
        Err(NoMemory) => give_up(&mut err),
    }
}

// Carries the words out, by the choosers of `--choose weight`, `age` and `mixed`, in this order.
fn carry_out<L: Library, O: Sink, E: Sink>(
    alloc: Global,
    words: &[String],
    library: &mut L,
    out: &mut O,
    err: &mut E,
) -> Result<Status, NoMemory> {
    let by_weight: Box<dyn Chooser> = Box::new(alloc, ByWeight::new())?;
    let by_age: Box<dyn Chooser> = Box::new(alloc, ByAge::new())?;
    let mixed: Box<dyn Chooser> = Box::new(alloc, Mixed::new())?;
    let mut choosers = Vec::new(alloc);
    choosers.push(by_weight)?;
    choosers.push(by_age)?;
    choosers.push(mixed)?;
    let status = run(alloc, words, library, out, err, choosers, &TrivialWorld);
    Ok(status)
}

// Says that no memory is left. The exit code is that of this, or that it couldn't be said.
fn give_up<E: Sink>(err: &mut E) -> ExitCode {
    let status = match err.put(b"amphion: no memory\n") {
        Put::Done => Status::NoMemory,
        Put::Failed => Status::Write,
    };
    ExitCode::from(status.code())
}

// The command line without the program's name.
fn words_of<R: Env + AllocGlobal>(rt: &R, alloc: Global) -> io::Result<Vec<String>> {
    let mut words = Vec::new(alloc);
    for word in env::args(rt)?.skip(1) {
        words.push(word)?;
    }
    Ok(words)
}
