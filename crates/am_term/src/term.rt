use crate::id::{SortId, SymId};
use sqlite_items::{Boxed, Items};

/// A term: a variable by its number and sort, an input by its number, or a symbol at its arguments.
#[derive(Drop)]
pub enum Term {
    Var { n: u32, sort: SortId },
    In { k: u32 },
    App { f: SymId, args: Items<Term> },
}

/// An atom: a relation at its arguments, or an equation.
#[derive(Drop)]
pub enum Atom {
    Rel { r: SymId, args: Items<Term> },
    Eq { left: Term, right: Term },
}

/// An atom or its negation.
#[derive(Drop)]
pub struct Literal {
    pub positive: bool,
    pub atom: Atom,
}

/// A formula without quantifiers.
#[derive(Drop)]
pub enum Formula {
    Atom(Atom),
    Not(Boxed<Formula>),
    And(Items<Formula>),
    Or(Items<Formula>),
    Implies(Boxed<Formula>, Boxed<Formula>),
    Iff(Boxed<Formula>, Boxed<Formula>),
}
