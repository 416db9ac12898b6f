//! Rewriting and dropping of clauses.
//!
//! `specs/Subsumption` says which clause subsumes which, `Reasons` why a row is dropped, `NormalStep` the next step
//! towards a clause's normal form, `Places` the parts of literals in preorder. The crate rests on `am_rules`.
#![tactic(auto)]

mod agreeing;
mod dropping;
mod feature_bits;
mod frames;
mod laws;
mod matcher;
mod normalizing;
mod orienting;
mod placing;
mod reason;
mod rewriter;
mod step;
mod subsuming;

pub use dropping::{drop_reason, own_reason, too_big};
pub use feature_bits::features;
pub use laws::{
    law_of_lesser_variables, law_of_normal_steps, law_of_places, law_of_subsumption, law_of_units,
};
pub use matcher::Matcher;
pub use placing::places;
pub use reason::Reason;
pub use rewriter::Rewriter;
pub use step::{RewriteMade, StepRule, Unit};
pub use subsuming::{subsumes, subsumes_featured};
