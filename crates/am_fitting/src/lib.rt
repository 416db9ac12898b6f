//! Answers that fit: in a proof, the terms of each row's answer have the outputs' sorts.
//!
//! What a proof over a theory and a diagram is, is said in `am_diagram` (`Steps`), which sorts fit in `am_term`
//! (`Sorting`). `specs/Laws.antt` states the law. The crate rests on `am_term`, `am_clause`, `am_theory` and
//! `am_diagram`.
#![tactic(auto)]

mod laws;

pub use laws::law_of_fitting_answers;
