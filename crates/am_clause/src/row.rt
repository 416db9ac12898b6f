use crate::clause::Clause;
use am_term::Term;
use sqlite_items::Items;

/// A side of an equation.
#[derive(Clone, Copy, Debug, PartialEq, Eq)]
pub enum Side {
    Left,
    Right,
}

/// How a row was made. `p` and `q` are the numbers of earlier rows from 1, `i` and `j` places of
/// literals in them from 1, `path` the way down to a part of a literal.
#[derive(Drop)]
pub enum Rule {
    Axiom {
        axiom: u32,
        clause: u32,
    },
    Goal,
    Given {
        k: u32,
    },
    Factor {
        p: u32,
        i: u32,
        j: u32,
    },
    Reflex {
        p: u32,
        i: u32,
    },
    Resolve {
        p: u32,
        i: u32,
        q: u32,
        j: u32,
    },
    Para {
        p: u32,
        j: u32,
        side: Side,
        q: u32,
        i: u32,
        path: Items<u32>,
    },
    Rewrite {
        p: u32,
        j: u32,
        side: Side,
        q: u32,
        i: u32,
        path: Items<u32>,
    },
    Close {
        p: u32,
    },
}

/// A clause with the rule that made it and, for each row that the rule binds, a term for each of that
/// row's variables, over the variables of the clause.
#[derive(Drop)]
pub struct Row {
    pub rule: Rule,
    pub with: Items<Items<Term>>,
    pub clause: Clause,
}

/// Rows in the order in which they were made.
#[derive(Drop)]
pub struct Log {
    pub rows: Items<Row>,
}

/// A conclusion with the terms that each row was bound to.
#[derive(Drop)]
pub struct Made {
    pub clause: Clause,
    pub with: Items<Items<Term>>,
}
