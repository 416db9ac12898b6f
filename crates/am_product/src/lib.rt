//! What is printed of a log that a search found: the log's text and the unit that its last row's answer is planned as,
//! or that no inputs meet the givens.
//!
//! `specs/Product.antt` says what is made of a log, `Laws` what holds; `Planned` is a form for private contracts. What
//! is handed out was examined, so the crate rests on nothing of the search.
#![tactic(auto)]

mod laws;
mod making;
mod outcome;
mod refuting;

pub use laws::law_of_one_product;
pub use making::product;
pub use outcome::Product;
pub use refuting::refute;
