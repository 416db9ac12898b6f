//! Theories: sorts with their FORTRAN representations, routines and functions with the symbols that
//! they compute, literals and axioms; and theory files and their reader.
//!
//! `specs/Reading.antt` says which theory a file is, or what its first fault is: `Declarations` which
//! form is which declaration, `Faults` when a declaration has a fault in the light of the earlier ones,
//! `Contents` what a declaration adds. `Facts` says what holds of each theory that was read. The format
//! is this project's own. The crate rests on `am_term`, `am_text`, `am_clause` and `am_syntax`.
#![tactic(auto)]

mod adding;
mod declaration;
mod fault;
mod fortran;
mod kinds;
mod laws;
mod limits;
mod lookups;
mod reading;
mod reps;
mod shapes;
mod tables;
mod theory;

pub use declaration::{Declaration, Typed, WrittenRep};
pub use fault::{TheoryFault, TheoryKind};
pub use laws::theories_that_were_read_are_well_formed;
pub use lookups::{
    argument_sorts, copy_of, function_named, is_copy, is_fortran_name, literal_of, rep_of,
    result_sort, routine_named,
};
pub use reading::read_theory;
pub use shapes::{list_of, name_of, word_of};
pub use theory::{Axiom, FortranFunction, LitValue, LiteralDecl, Rep, Routine, Theory};
