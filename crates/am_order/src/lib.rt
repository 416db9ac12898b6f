//! The recursive path order of terms under a precedence of the symbols.
//!
//! `specs/Precedence` says which symbol stands above which, `Order` which term is greater than which,
//! `Cases` the four cases in which it is, `Parts` and `Closure` what its laws speak of. The crate rests
//! on `am_term`.
#![tactic(auto)]

mod laws;
mod order;
mod plain;
mod precedence;
mod sides;

pub use laws::{law_of_cases, law_of_contexts, law_of_instances, law_of_order, law_of_parts};
pub use order::greater;
pub use plain::greater_plain;
pub use sides::{Oriented, orient};
