//! Running a unit by terms, what a unit does in an interpretation, and when it is right for a diagram.
//!
//! `specs/Terms.antt` says which terms a unit leaves in its outputs or which item is at fault first,
//! `specs/Given.antt` which inputs a diagram is for and which outputs it asks for, `Run` which numbers a
//! unit leaves under which names, `Lawful` which units FORTRAN and the theory allow, `Right` when a unit
//! solves a diagram. The crate rests on `am_world`, `am_theory`, `am_diagram`, `am_fortran`.
#![tactic(auto)]

mod declarations;
mod effects;
mod fault;
mod faults;
mod laws;
mod lookups;
mod name_index;
mod operands;
mod running;
mod scene;
mod store;
mod targets;
mod types;

pub use fault::{ExecFault, ExecKind};
pub use laws::{law_of_right, law_of_rules, law_of_runs};
pub use running::symbolic;
pub use types::{dummy_type, is_scalar, local_type};
