use am_term::{Literal, Term};
use sqlite_items::Items;

/// Literals, of which one is true whatever the variables stand for. With an answer: one is true, or the
/// terms of the answer meet the goal.
#[derive(Drop)]
pub struct Clause {
    pub literals: Items<Literal>,
    pub answer: Option<Items<Term>>,
}
