ghost use Rattle.std.specs.Prelude.{◌≡◌, ◌<◌, ℕ, Option, Some, length, slice_get};
ghost use Rattle.am_term.specs.declared.id.SortId.{SortId};

use crate::id::SortId;
use crate::name::Name;
use crate::symbol::Symbol;
use sqlite_items::Items;

/// Sorts, the parent of each sort that has one, and symbols. A parent stands before its sort, so
/// the sorts form a forest.
#[derive(Debug, Drop)]
pub struct Signature {
    pub sorts: Items<Name>,
    pub parents: Items<Option<SortId>>,
    pub symbols: Items<Symbol>,
    ghost parented: { length parents ≡ length sorts },
    ghost lower: { (s : ℕ) (p : SortId) → slice_get parents s ≡ Some (Some p) → p.0 < s },
}

/// A signature with the sorts of the inputs of a diagram.
#[derive(Clone, Copy)]
pub struct Ctx<'a> {
    pub sig: &'a Signature,
    pub ins: &'a [SortId],
}
