//! A demonstration of size k: its theory, its diagram, and the line that sums it up.
//!
//! `specs/Files.antt` says what the texts are. The theory has k routines and k abstract functions; each function is
//! reduced to a routine and the function before it, so a search for the last function's value is k rewritings long.
#![tactic(auto)]

mod files;
mod lines;
#[cfg(test)]
mod tests;

pub use files::{diagram_file, summary, theory_file};
