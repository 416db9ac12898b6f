//! The path order and matching on shared terms.
//!
//! Which term an id stands for is said by `am_bank`, which term is greater by `am_order`, which instance of a
//! pattern is a term by `am_unify`. `specs/Matching` says what matching answers over ids, `specs/SortTable` what
//! a table of sorts holds; `specs/Terms`, `specs/Bound` and `specs/Pairs` are words of private contracts, and of
//! the calls for the crates above; `specs/Settled`, of private contracts alone, says what holds of ids that were
//! matched. The crate rests on these three crates.
#![tactic(auto)]

mod binding;
mod laws;
mod matching;
mod node;
mod order;
mod precedence;
mod sides;
mod sorting;
#[cfg(test)]
mod tests;

pub use binding::inserted;
pub use laws::law_of_sort_tables;
pub use matching::{matches_shared, matches_tabled};
pub use node::node_at;
pub use sides::{greater_shared, orient_shared};
pub use sorting::sort_shared;
