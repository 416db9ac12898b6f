//! The rows that a row of a proof rests on are a proof, and end with that row.
//!
//! Laws about definitions alone, those of `Ancestors` and `Steps` of `am_clause`; `specs/Laws` says what a row of the
//! new log has of its old one.
#![tactic(auto)]

mod laws;

pub use laws::law_of_ancestry;
