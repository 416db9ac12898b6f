//! The rules of inference, each with most general bindings, and rewriting by a match.
//!
//! `specs/Conclusions` has each rule as a function, which its call computes of any clauses. `specs/Inference` says what
//! an inference and a rewrite are, in the words of `am_clause`'s rules and steps, and `specs/Closing` what becomes of
//! the variables of an answer. The other files of `specs/` tell how unification leads there.
#![tactic(auto)]

mod alone;
mod asking;
mod closing;
mod instancing;
mod kinds;
mod laws;
mod matching;
mod numbers;
mod paramodulating;
mod replacing;
mod resolving;
mod rewriting;
mod rows;
mod sorting;

pub use alone::{factor, reflex};
pub use closing::close;
pub use laws::{
    law_of_conclusions, law_of_inferences, law_of_made_steps, law_of_one_row, law_of_rewriting,
    law_of_sorted_inferences,
};
pub use paramodulating::paramodulate;
pub use resolving::resolve;
pub use rewriting::rewrite;
pub use rows::renumber_made;
