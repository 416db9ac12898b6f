use crate::bound_table::BoundTable;
use crate::table::NameTable;
use am_term::{Name, Signature, SortId};

/// What a name alone may stand for beside a symbol: a variable or an input, with its number and its
/// sort, or something that is declared but may not stand there.
#[derive(Clone, Copy, Debug, PartialEq, Eq)]
pub enum Standing {
    Variable { n: u32, sort: SortId },
    Input { k: u32, sort: SortId },
    Barred,
}

/// A name and what it stands for.
#[derive(Debug, Drop)]
pub struct Bound {
    pub name: Name,
    pub standing: Standing,
}

/// What the names in a term may stand for: a signature, the numbers of its symbols by their names, and
/// further names.
#[derive(Clone, Copy)]
pub struct Scope<'a> {
    pub sig: &'a Signature,
    pub numbers: &'a NameTable,
    pub bound: &'a BoundTable,
}

/// What can be wrong inside a term, an atom or a formula whose shape is right.
#[derive(Clone, Copy, Debug, PartialEq, Eq)]
pub enum Flaw {
    /// The head of a list, or a name alone in an atom's place, is no symbol.
    UnknownName,
    /// A term's sort isn't that of its place, or a relation stands as a term, or a function as an atom.
    BadSort,
    /// A symbol has another number of arguments than declared.
    BadArity,
    /// A name alone in a term's place is nothing that may stand there.
    Unbound,
}
