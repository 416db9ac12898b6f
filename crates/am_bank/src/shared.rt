use crate::id::TermId;
use sqlite_items::Items;

/// An atom over the terms of a bank. A relation atom is held as one node, whose symbol is the relation
/// and whose arguments are those of the atom.
#[derive(Clone, Copy, Debug, PartialEq, Eq)]
pub enum SharedAtom {
    Rel(TermId),
    Eq { left: TermId, right: TermId },
}

/// An atom over the terms of a bank, or its negation.
#[derive(Clone, Copy, Debug, PartialEq, Eq)]
pub struct SharedLiteral {
    pub positive: bool,
    pub atom: SharedAtom,
}

/// A clause over the terms of a bank.
#[derive(Drop)]
pub struct SharedClause {
    pub literals: Items<SharedLiteral>,
    pub answer: Option<Items<TermId>>,
}

/// A conclusion over the terms of a bank, with the terms for the variables of each parent.
#[derive(Drop)]
pub struct SharedMade {
    pub clause: SharedClause,
    pub with: Items<Items<TermId>>,
}

/// Terms of a bank for variables, by the numbers of these, in order of the numbers.
#[derive(Drop)]
pub struct SharedSubst(pub Items<(u32, TermId)>);
