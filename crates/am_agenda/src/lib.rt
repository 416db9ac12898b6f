//! Choosers: which of the rows that wait is taken next.
//!
//! A chooser's meaning is `pick_after`: the place that it will answer for a list once it was asked some others.
//! `specs/Picks.antt` says what the choosers here pick. The rules are this project's own.
#![tactic(auto)]

mod age;
mod best;
mod chooser;
mod laws;
mod mixed;
mod wait_row;
mod weight;

pub use age::ByAge;
pub use chooser::Chooser;
pub use laws::law_of_picks;
pub use mixed::Mixed;
pub use wait_row::WaitRow;
pub use weight::ByWeight;
