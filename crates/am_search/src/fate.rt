use am_clause::{Row, Rule};
use am_simplify::Reason;

/// What became of a row. A kept row has its number.
#[derive(Clone, Copy, Debug, PartialEq, Eq)]
pub enum Fate {
    Kept(u32),
    Rewritten,
    Dropped(Reason),
    Closed,
    Last,
}

/// The number of a row, and its fate.
#[derive(Clone, Copy, Debug, PartialEq, Eq)]
pub struct Prepared {
    pub number: u32,
    pub fate: Fate,
}

/// What the row asks for that got its fate last: nothing, its normal step, its close row, or the end,
/// with an answer or without.
#[derive(Drop)]
pub enum Stage {
    Quiet,
    Makes(Row),
    Closes(Row),
    Ended(bool),
}

/// How a search ended.
#[derive(Clone, Copy, Debug, PartialEq, Eq)]
pub enum End {
    Found,
    Contradiction,
    Exhausted,
    Spent,
}

/// What is due.
#[derive(Clone, Copy, Debug, PartialEq, Eq)]
pub enum Kind {
    Inferring,
    Choosing,
    Ending(End),
}

/// The rule of an inference, and what became of its row.
#[derive(Drop)]
pub struct Entry {
    pub rule: Rule,
    pub fate: Fate,
}
