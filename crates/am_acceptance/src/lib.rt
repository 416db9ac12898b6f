//! What a search finds is accepted.
//!
//! Laws about definitions alone: those of the plain search of `am_search`, of the texts of `am_log`, of the plans of
//! `am_plan` and of the accepted texts of `am_check`; `specs/Laws` states them.
#![tactic(auto)]

mod laws;

pub use laws::{law_of_answers, law_of_heights, law_of_products, law_of_texts};
