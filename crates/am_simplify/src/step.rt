use am_clause::{Clause, Made, Side};
use sqlite_items::Items;

/// How a clause is taken one step towards its normal form: its negative equation `i` goes, or the part of literal `i`
/// at a path is rewritten with the unit of a row, used from a side of it. Places are counted from 1.
#[derive(Drop)]
pub enum StepRule {
    Reflex {
        i: u32,
    },
    Rewrite {
        row: u32,
        side: Side,
        i: u32,
        path: Items<u32>,
    },
}

/// A step with its conclusion and bindings.
#[derive(Drop)]
pub struct RewriteMade {
    pub rule: StepRule,
    pub made: Made,
}

/// A unit: the clause of a row that rewrites, and the side from which it is used.
#[derive(Drop)]
pub struct Unit {
    pub row: u32,
    pub side: Side,
    pub clause: Clause,
}
