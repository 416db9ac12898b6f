//! Diagrams: the inputs, objects and outputs of a problem, and the relations between them; diagram
//! files, their reader, and the goal and the givens as clauses.
//!
//! `specs/Reading.antt` says which diagram a file is, or what its first fault is: `Declarations` which
//! form is which declaration, `Faults` when a declaration has a fault in the light of the earlier ones,
//! `Drafts` what a declaration adds. `Clauses` says what the goal and the givens are, `Facts` what holds
//! of each diagram that was read. The format is this project's own. The crate rests on `am_term`,
//! `am_text`, `am_clause`, `am_syntax` and `am_theory`.
#![tactic(auto)]

mod adding;
mod clauses;
mod declaration;
mod diagram;
mod draft;
mod fault;
mod kinds;
mod laws;
mod looking;
mod reading;
mod scopes;
mod shapes;
mod tables;

pub use clauses::{givens_of, goal_of};
pub use declaration::Declaration;
pub use diagram::Diagram;
pub use draft::Draft;
pub use fault::{DiagramFault, DiagramKind};
pub use laws::diagrams_that_were_read_are_well_formed;
pub use reading::read_diagram;
