//! Unification and matching of terms.
//!
//! `specs/` says what they mean: `Mgu` the textbook recursion, `Unifier` what a most general unifier is,
//! `Matching` which instance of a pattern is a term; these stand on `Substitution`, `Occurrence` and
//! `Size`. `Opening` says what the steps in between give. The crate rests on `am_term`.
#![tactic(auto)]

mod applying;
mod laws;
mod matching;
mod occurring;
mod opening;
mod solving;
mod substitution;

pub use laws::{law_of_mgu, law_of_most_general, law_of_occurrence, law_of_renaming};
pub use matching::matches;
pub use solving::unify;
pub use substitution::Subst;
