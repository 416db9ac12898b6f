//! From the terms of an answer to the subroutine that computes them by straight-line calls.
//!
//! `specs/Calls.antt` says which calls an answer asks for, `Names` what their outputs are called and `Numbering`
//! how that is made step by step, `Plan` which subroutine that gives, `Fingerprints` by which numbers calls and terms
//! are looked up, `Answers` which answers there is one for and `AnswerTests` how these are told, `Laws` that its run by
//! terms gives the answer. The crate rests on `am_term`, `am_clause`, `am_theory`, `am_diagram`, `am_fortran`,
//! `am_world` and `am_exec`.
#![tactic(auto)]

mod answering;
mod application;
mod call;
mod calling;
mod declaring;
mod fingerprint_index;
mod fingerprinting;
mod laws;
mod lookups;
mod named_terms;
mod naming;
mod places;
mod planning;
mod seen;
mod stating;

pub use answering::is_answer;
pub use call::{Callee, PlannedCall};
pub use calling::calls;
pub use laws::{law_of_answer, law_of_calls, law_of_need};
pub use planning::plan;
