/// A sort, by its place among the sorts of a signature, from 0.
#[derive(Clone, Copy, Debug, PartialEq, Eq, PartialOrd, Ord)]
pub struct SortId(pub u32);

/// A symbol, by its place among the symbols of a signature, from 0.
#[derive(Clone, Copy, Debug, PartialEq, Eq, PartialOrd, Ord)]
pub struct SymId(pub u32);
