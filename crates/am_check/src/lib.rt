//! The check of a printed text: a proof, and behind it the subroutine that it is of. What it accepts is right.
//!
//! `specs/Accepted.antt` says which texts are accepted, `specs/FirstFault.antt` what the first fault of any other
//! text is and at which line it stands; `specs/Laws.antt` has the laws. The other files of specs/ are forms for
//! private contracts. The crate rests on `am_calculus` for steps, on `am_log` and `am_fortran` for the two parts of
//! a text, on `am_exec` for what a unit does, and on nothing of the search.
#![tactic(auto)]

mod checking;
mod laws;
mod lines;
mod proving;
mod reason;
mod refuting;
mod sorting;
mod starts;

pub use checking::check;
pub use laws::{law_of_acceptance, law_of_prefixes, law_of_refusal, law_of_refutation};
pub use proving::last_answer;
pub use reason::{Reason, Verdict};
pub use refuting::{ends_empty, is_proof};
