ghost use Rattle.std.specs.Prelude.{◌≡◌, ◌++◌, ◌∷◌, [], IfOk, map};
ghost use Rattle.am_syntax.specs.declared.scope.Bound.{Bound};
ghost use Rattle.am_syntax.specs.Positions.{position_of};

use crate::scope::{Bound, Standing};
use crate::table::NameTable;
use am_term::{Name, NoMemory};
use sqlite_items::Items;
use std::alloc::Global;

/// Names in order with what each stands for, looked up in a map: the first of a name counts.
#[derive(Drop)]
pub struct BoundTable {
    pub entries: Items<Bound>,
    names: NameTable,
    ghost alike: { names.names ≡ map (λ (b : Bound). b.name) entries },
}

impl BoundTable {
    /// The table of no names. Takes no memory.
    pub fn new(alloc: Global) -> BoundTable
        ensures { result.entries ≡ [] }
    {
        let entries = Items::new(alloc);
        let names = NameTable::new(alloc);
        BoundTable { entries, names }
    }

    /// The place of the first of this name. Takes no memory.
    pub fn position(&self, name: &Name) -> Option<u32>
        ensures { result ≡ position_of name.now (map (λ (b : Bound). b.name) self.now.entries) }
    {
        self.names.position(name)
    }

    /// The table with one more name at its end; no memory too where it has 2^32 names.
    pub fn with(
        self,
        alloc: Global,
        name: &Name,
        standing: Standing,
    ) -> Result<BoundTable, NoMemory>
        ensures { IfOk result (λ t. t.entries ≡ self.entries ++ record { name = name.now; standing = standing } ∷ []) }
    {
        let BoundTable { mut entries, names } = self;
        let names = names.appending(alloc, name)?;
        let name = Name::new(alloc, name.as_str())?;
        entries.push(Bound { name, standing })?;
        Ok(BoundTable { entries, names })
    }
}
