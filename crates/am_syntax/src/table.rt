ghost use Rattle.std.specs.Prelude.{◌≡◌, ◌||◌, ◌++◌, ◌∷◌, [], List, ℕ, IfOk, None};
ghost use Rattle.std.specs.HashMap.{get_by_text};
ghost use Rattle.std.specs.Str.{bytes_eq};
ghost use Rattle.am_term.specs.NameLists.{is_among};
ghost use Rattle.am_syntax.specs.Positions.{position_of};

use am_term::{Name, NoMemory};
use sqlite_items::Items;
use std::alloc::Global;
use std::collections::HashMap;

/// Names in order with the number of each, from 0, looked up in a map: that of its first place.
#[derive(Drop)]
pub struct NameTable {
    pub names: Items<Name>,
    numbers: HashMap<String, u32>,
    ghost agrees: { (q : List ℕ) → get_by_text numbers q ≡ position_of q names },
}

impl NameTable {
    /// The table of no names. Takes no memory.
    pub fn new(alloc: Global) -> NameTable
        ensures { result.names ≡ [] }
    {
        let names = Items::new(alloc);
        let numbers = HashMap::new(alloc);
        NameTable { names, numbers }
    }

    /// The number of the name.
    pub fn position(&self, name: &Name) -> Option<u32>
        ensures { result ≡ position_of name.now self.now.names }
    {
        self.numbers.get(name.as_str()).copied()
    }

    /// The name is in the table.
    #[tactic(auto, using(crate::proofs::Positions::position_laws))]
    pub fn contains(&self, name: &Name) -> bool
        ensures { result ≡ is_among name.now self.now.names }
    {
        self.position(name).is_some()
    }

    /// The table with a new name at its end; no memory too where the number would exceed 32 bits.
    pub fn with(self, alloc: Global, name: &Name) -> Result<NameTable, NoMemory>
        requires { position_of name.now self.names ≡ None }
        ensures { IfOk result (λ t. t.names ≡ self.names ++ name.now ∷ []) }
    {
        let NameTable {
            mut names,
            mut numbers,
        } = self;
        let Ok(number) = u32::try_from(names.len()) else {
            return Err(NoMemory);
        };
        names.push(Name::new(alloc, name.as_str())?)?;
        numbers.insert(String::from_str(alloc, name.as_str())?, number)?;
        Ok(NameTable { names, numbers })
    }

    /// The table with the name at its end, which may stand in it already; no memory too where the number
    /// would exceed 32 bits.
    pub fn appending(self, alloc: Global, name: &Name) -> Result<NameTable, NoMemory>
        ensures { IfOk result (λ t. t.names ≡ self.names ++ name.now ∷ []) }
    {
        if self.position(name).is_none() {
            return self.with(alloc, name);
        }
        let NameTable { mut names, numbers } = self;
        let again = Name::new(alloc, name.as_str())?;
        names.push(again)?;
        Ok(NameTable { names, numbers })
    }

    /// The table with the name, which it may have already.
    pub fn including(self, alloc: Global, name: &Name) -> Result<NameTable, NoMemory>
        ensures { IfOk result (λ t. (q : List ℕ)
            → is_among q t.names ≡ (bytes_eq q name.now || is_among q self.names)) }
    {
        if self.position(name).is_some() {
            return Ok(self);
        }
        self.with(alloc, name)
    }
}
