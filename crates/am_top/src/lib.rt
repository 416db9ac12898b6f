//! The one call that the program makes: words, files and choosers in, a text out.
//!
//! `specs/Commands.antt` says which answer each command has, as a chain of steps; `Answers` what a step, a chain and an
//! answer are, `Messages` what is said where no text is printed, `Clauses` what single clauses of `run` say. `Steps`
//! has forms for private contracts. The crate rests on all others but those of laws and of cases.
#![tactic(auto)]

mod answer;
mod answering;
mod command;
mod demonstrating;
mod examining;
mod finding;
mod loading;
mod making;
mod messages;
mod printing;
mod searching;
mod showing;
mod status;
#[cfg(test)]
mod tests;

pub use answer::{Answer, File, Refusal};
pub use command::run;
pub use status::Status;
