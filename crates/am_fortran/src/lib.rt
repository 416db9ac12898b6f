//! Units of FORTRAN 77 and their text in its fixed form: written, and read with the first fault.
//!
//! `specs/Well.antt` says which units there are, `specs/Text.antt` which text a unit has,
//! `specs/Faults.antt` where a text that is no unit's is at fault, `specs/Columns.antt` the laws. The
//! layout is this project's own within ANSI X3.9-1978. The crate rests on `am_term` for names.
#![tactic(auto)]

mod draft;
mod fault;
mod guess;
mod item;
mod laws;
mod lines;
mod numbers;
mod reading;
mod spelled;
mod statement;
mod unit;
mod well;
mod words;
mod writing;

pub use fault::{UnitFault, UnitKind};
pub use laws::{law_of_columns, law_of_numbers, law_of_one_text};
pub use reading::read_unit;
pub use statement::{Decl, FortranType, Operand, Statement};
pub use unit::Unit;
pub use writing::write_unit;
