//! The command line of the program: from words to a command.
//!
//! `specs/` says what words mean: `Grammar` what names and options stand in them, `Numbers` which
//! numbers and choices are values, `Commands` what each command asks for, and the one reading of all
//! words. The crate rests on `am_term` for names and on the kit's `clap`.
#![tactic(auto)]

mod command;
mod fault;
mod laws;
mod line;
mod making;
mod read;
mod value;

pub use command::Command;
pub use fault::WordsFault;
pub use laws::law_of_ranges;
pub use read::read_words;
