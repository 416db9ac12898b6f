ghost use Rattle.std.specs.Prelude.{◌≡◌, is_some};
ghost use Rattle.am_term.specs.Symbols.{has_result, is_computable};

use crate::id::SortId;
use crate::kind::SymKind;
use crate::name::Name;
use sqlite_items::Items;

/// A symbol with the sorts of its arguments and of its result. A relation, and nothing else, has no
/// result.
#[derive(Debug, Drop)]
pub struct Symbol {
    pub name: Name,
    pub args: Items<SortId>,
    pub result: Option<SortId>,
    pub kind: SymKind,
    ghost agrees: { is_some result ≡ has_result kind },
}

impl Symbol {
    /// Whether a program can compute it: it is a literal, an output or a listed function. Takes no
    /// memory.
    pub fn computable(&self) -> bool
        ensures { result ≡ is_computable self.now.kind }
    {
        match self.kind {
            SymKind::Function => false,
            SymKind::Relation => false,
            SymKind::Literal => true,
            SymKind::Output => true,
            SymKind::Value => true,
        }
    }
}
