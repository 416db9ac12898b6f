//! The search: rows are inferred and chosen, one at a time, until a last row, or the budget, ends it.
#![tactic(auto)]

mod ahead;
mod asking;
mod candidate;
mod choices;
mod entries;
mod fate;
mod fates;
mod judging;
mod laws;
mod listing;
mod lookups;
mod outcome;
mod rows;
mod searcher;
mod searching;
mod setting;
mod solving;
mod source;
mod starting;
mod state;
mod turn;
mod unit_taking;
mod weighed_rows;

pub use fate::{Entry, Fate};
pub use laws::{
    law_of_entries, law_of_history, law_of_last, law_of_parents, law_of_steps, law_of_turns,
    law_of_weights,
};
pub use outcome::{Limits, Outcome};
pub use solving::search;
