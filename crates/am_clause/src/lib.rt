//! Clauses: lists of literals of which one is true, with an answer read out along the way.
//!
//! `specs/` says what the calls give: `ClauseForm` the clauses of a formula, `Renaming` the numbering
//! of a clause's variables, `Tautology`, `Size` and `Exceeding` what their names say. The crate rests on `am_term`.
#![tactic(auto)]

mod ancestry;
mod building;
mod clausal;
mod clause;
mod collecting;
mod copying;
mod counting;
mod exceeding;
mod fault;
mod finality;
mod laws;
mod merging;
mod numbering;
mod row;
mod tautology;
mod weighing;

pub use ancestry::ancestors;
pub use clausal::clauses_of;
pub use clause::Clause;
pub use collecting::{clause_variables, formula_variables};
pub use copying::{copy_clause, copy_lists};
pub use exceeding::exceeds;
pub use fault::ClauseFault;
pub use finality::is_final;
pub use laws::{
    law_of_count, law_of_covers, law_of_made, law_of_numbering, law_of_rows, law_of_walks,
};
pub use merging::{contains, merge};
pub use numbering::renumber;
pub use row::{Log, Made, Row, Rule, Side};
pub use tautology::is_tautology;
pub use weighing::weight_of;
