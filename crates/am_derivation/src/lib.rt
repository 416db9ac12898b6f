//! What a search infers is a proof.
//!
//! Laws about definitions alone, those of the plain search of `am_search` and of the proofs of `am_diagram`;
//! `specs/Laws` states them.
#![tactic(auto)]

mod laws;

pub use laws::{law_of_counts, law_of_derivations, law_of_ends, law_of_logs, law_of_sizes};
