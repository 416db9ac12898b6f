use crate::theory::LitValue;
use am_syntax::WrittenFormula;
use am_term::Name;
use sqlite_items::Items;

/// A representation as it is written, with whatever numbers.
#[derive(Clone, Copy, Debug, PartialEq, Eq)]
pub enum WrittenRep {
    Double,
    Integer,
    Logical,
    Char(i64),
    DoubleVec(i64),
    DoubleMat(i64, i64),
    IntegerVec(i64),
}

/// A name and the sort that is written behind it.
#[derive(Debug, Drop)]
pub struct Typed {
    pub name: Name,
    pub sort: Name,
}

/// A declaration of a theory file as it is written, without its place.
#[derive(Drop)]
pub enum Declaration {
    Sort {
        name: Name,
        rep: Option<WrittenRep>,
        copy: Option<Name>,
    },
    Subsort {
        name: Name,
        sort: Name,
    },
    Function {
        name: Name,
        args: Items<Name>,
        result: Name,
    },
    Relation {
        name: Name,
        args: Items<Name>,
    },
    Literal {
        name: Name,
        sort: Name,
        value: LitValue,
    },
    Routine {
        name: Name,
        inputs: Items<Name>,
        outputs: Items<Typed>,
    },
    Value {
        function: Name,
        name: Name,
        args: Items<Name>,
        result: Name,
    },
    Axiom {
        variables: Items<Typed>,
        formula: WrittenFormula,
    },
}
