use am_term::Name;
use sqlite_items::{Boxed, Items};

/// Which words may stand alone in a term: names, or any word.
#[derive(Clone, Copy, Debug, PartialEq, Eq)]
pub enum Words {
    Names,
    Any,
}

/// A term as it is written: a word alone, or a head with one or more arguments.
#[derive(Drop)]
pub enum WrittenTerm {
    Alone(Name),
    Headed {
        head: Name,
        args: Items<WrittenTerm>,
    },
}

/// An atom as it is written: an equation, or a relation's name with its arguments, alone if it has none.
#[derive(Drop)]
pub enum WrittenAtom {
    Equation {
        left: WrittenTerm,
        right: WrittenTerm,
    },
    Relation {
        name: Name,
        args: Items<WrittenTerm>,
    },
}

/// An atom or its negation, as it is written.
#[derive(Drop)]
pub struct WrittenLiteral {
    pub positive: bool,
    pub atom: WrittenAtom,
}

/// A formula as it is written. Of a quantifier inside it nothing is kept.
#[derive(Drop)]
pub enum WrittenFormula {
    Atom(WrittenAtom),
    Not(Boxed<WrittenFormula>),
    And(Items<WrittenFormula>),
    Or(Items<WrittenFormula>),
    Implies(Boxed<WrittenFormula>, Boxed<WrittenFormula>),
    Iff(Boxed<WrittenFormula>, Boxed<WrittenFormula>),
    Quantified,
}
