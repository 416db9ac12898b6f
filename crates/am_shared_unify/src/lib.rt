//! Unification on shared terms.
//!
//! Which term an id stands for is said by `am_bank`, what a most general unifier is by `am_unify`. `specs/Unifying`
//! says what unification answers over ids; `specs/Sides`, `specs/Tables` and `specs/Opening` are words of private
//! contracts. The crate rests on these two crates and on `am_sharing`.
#![tactic(auto)]

mod applying;
mod occurring;
mod opening;
mod solving;
#[cfg(test)]
mod tests;

pub use solving::unify_shared;
