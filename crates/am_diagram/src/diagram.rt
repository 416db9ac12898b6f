use am_term::{Literal, Name, SortId};
use sqlite_items::Items;

/// A problem: a subroutine's name, its inputs, the objects whose values aren't handed out, its
/// outputs, the facts about the inputs, and what must hold. In `required`, variable n is object n, and
/// the outputs follow the objects.
#[derive(Drop)]
pub struct Diagram {
    pub name: Name,
    pub inputs: Items<(Name, SortId)>,
    pub objects: Items<(Name, SortId)>,
    pub outputs: Items<(Name, SortId)>,
    pub givens: Items<Literal>,
    pub required: Items<Literal>,
}
