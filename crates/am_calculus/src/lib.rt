//! The calculus: that each step of a proof keeps truth, and the first fault of a row as a step.
//!
//! What a rule of inference and a step are is said in `am_clause` (`Rules`, `Steps`), when a clause holds in
//! `am_world` (`Holding`, `Questions`). `specs/Asked.antt` says what a proof is over, `Faults` which fault of a row
//! is the first; `Named` and `Starts` are forms for private contracts. The crate rests on `am_term`, `am_clause` and
//! `am_world`.
#![tactic(auto)]

mod binding;
mod checking;
mod comparing;
mod fault;
mod faulting;
mod laws;
mod named;
mod replacing;
mod rules;
mod sizing;
mod unmade;
mod walking;

pub use binding::{bind, bind_all, bind_clause};
pub use checking::{Starts, row_clause, step_fault};
pub use fault::StepFault;
pub use faulting::{binds_clause, fault_alone, fault_paired, fault_start, same_clause};
pub use laws::{law_of_faults, law_of_last, law_of_proofs, law_of_sorting, law_of_steps};
pub use named::{
    Alone, Paired, answers_paired, equal_alone, equal_paired, made_alone, made_paired,
    merge_clause, suits_alone, suits_paired,
};
pub use replacing::put_in;
pub use rules::{
    answers_go, equal_sides, equation_of, literal_at, one_atom, one_sign, one_term, opposite,
    part_in, part_of, places, side_in, turn, without,
};
pub use walking::{numbered_row, walk_clause, walk_terms};
