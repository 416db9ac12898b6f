//! Interpretations of a signature by whole numbers, and what is true in them.
//!
//! `specs/Interpretation.antt` says what an interpretation is, `Value` which number a term stands for,
//! `Truth` which formulas hold, `ClauseTruth` which clauses, `Holding` which clauses with an answer, `Questions` what
//! is asked of answers. Nothing here computes: a world has members for contracts alone, so
//! no byte that a program prints can depend on one. The crate rests on `am_term` and `am_clause`.
#![tactic(auto)]

mod laws;
mod world;

pub use laws::{
    law_of_assignments, law_of_bindings, law_of_clauses, law_of_coincidence, law_of_givens,
    law_of_goals, law_of_holding, law_of_inputs, law_of_instances, law_of_members, law_of_places,
    law_of_renaming, law_of_sources, law_of_truth, law_of_values, trivial_is_world,
};
pub use world::{TrivialWorld, World};
