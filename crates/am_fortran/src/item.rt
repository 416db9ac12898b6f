use crate::statement::{Decl, Statement};
use am_term::Name;
use sqlite_items::Items;

/// What a group of lines spells: the head of a unit, a declaration, an executable statement or the
/// end.
#[derive(Debug, Drop)]
pub enum Item {
    Head { name: Name, dummies: Items<Name> },
    Declaration(Decl),
    Executable(Statement),
    End,
}
