//! The text of a log: written, and read with the first fault; and where a program's proof part ends.
//!
//! What the text means: `specs/Text.antt` has the text of a log, line by line, and which logs have
//! one; `specs/Spelled.antt` how a row is spelled by names, `specs/Naming.antt` what the names stand
//! for, `specs/Cut.antt` how its text is cut into lines. `specs/Faults.antt` says where a text that is
//! no log's is at fault, over the groups of lines of `specs/Groups.antt`; `specs/Split.antt` what the
//! two parts of a program with its proof are; `specs/Laws.antt` the laws. The other files of specs/
//! are forms for private contracts. The text is this project's own.
//!
//! The crate rests on `am_text` for forms, `am_syntax` for tables of names, and on theories, diagrams
//! and logs as `am_theory`, `am_diagram` and `am_clause` have them.
#![tactic(auto)]

mod fault;
mod forms;
mod groups;
mod guess;
mod laws;
mod named;
mod naming;
mod numbers;
mod reading;
mod resolving;
mod sorting;
mod spelled;
mod split;
mod tables;
mod tests_of_names;
mod wrapping;
mod writing;

pub use fault::{LogFault, LogKind};
pub use laws::{
    law_of_cut, law_of_faults, law_of_one_text, law_of_one_way, law_of_proof_part, law_of_rows,
    law_of_split,
};
pub use reading::read_log;
pub use split::proof_length;
pub use writing::write_log;
