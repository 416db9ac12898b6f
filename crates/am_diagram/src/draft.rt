use am_syntax::WrittenLiteral;
use am_term::{Name, SortId};
use sqlite_items::Items;

/// What a diagram file has declared so far. Its literals stay as they are written, since the numbers of
/// the outputs' variables depend on how many objects there are in all.
#[derive(Drop)]
pub struct Draft {
    pub name: Name,
    pub inputs: Items<(Name, SortId)>,
    pub objects: Items<(Name, SortId)>,
    pub outputs: Items<(Name, SortId)>,
    pub givens: Items<WrittenLiteral>,
    pub required: Items<WrittenLiteral>,
}
