//! Text forms: words, numbers, quoted texts and lists of these, their reader and their writer.
//!
//! `specs/Grammar.antt` says which forms some bytes are, `specs/Scan.antt` what the first fault is,
//! `specs/Spelling.antt` how a form is written. The format is this project's own. The crate takes
//! names from `am_term`.
#![tactic(auto)]

mod atom;
mod bytes;
mod fault;
mod form;
mod laws;
mod limits;
mod reading;
mod scan;
mod writing;

pub use fault::{TextFault, TextKind};
pub use form::{Form, FormNode};
pub use laws::{
    faults_have_no_reading, lines_are_read, no_bytes_have_two_readings, round_trip,
    what_is_in_the_grammar_is_read, what_is_read_is_in_the_grammar, what_is_written_is_read,
    what_was_read_can_be_written,
};
pub use limits::TextLimits;
pub use reading::read_forms;
pub use writing::write_form;
