//! Shared terms: a bank holds each distinct term once, and an id stands for it.
//!
//! `specs/` says what they mean: `Node` a node as plain data, `Bank` what a list of nodes must be for
//! ids to stand for terms, `Trees` which term an id stands for, `Stands` what atoms, literals and clauses over
//! ids stand for. The crate rests on `am_term`, on `am_clause` for what clauses are, and on the kit's `indexmap`.
#![tactic(auto)]

mod bank;
mod id;
mod laws;
mod node;
mod shared;
#[cfg(test)]
mod tests;

pub use bank::Bank;
pub use id::TermId;
pub use laws::{law_of_equal_trees, law_of_growth, law_of_relations, law_of_trees};
pub use node::Node;
pub use shared::{SharedAtom, SharedClause, SharedLiteral, SharedMade, SharedSubst};
