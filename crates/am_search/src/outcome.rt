use crate::fate::Entry;
use am_clause::Log;
use sqlite_items::Items;

/// How many inferences a search may make, 1 to 100,000, and how much a clause or a term may weigh, 10 to 400.
#[derive(Clone, Copy, Debug, PartialEq, Eq)]
pub struct Limits {
    pub budget: u32,
    pub weight: u32,
}

/// How a search ended: an answer was found; the budget is used up and another inference is due; nothing is left to do;
/// axioms and givens contradict each other. There is one entry for each inference; the choices are the numbers of the
/// rows that were chosen, in order; the log has the last row and all that it rests on.
#[derive(Drop)]
pub enum Outcome {
    Found {
        log: Log,
        entries: Items<Entry>,
        choices: Items<u32>,
    },
    Spent {
        entries: Items<Entry>,
        choices: Items<u32>,
    },
    Exhausted {
        entries: Items<Entry>,
        choices: Items<u32>,
    },
    Contradiction {
        log: Log,
        entries: Items<Entry>,
        choices: Items<u32>,
    },
}
