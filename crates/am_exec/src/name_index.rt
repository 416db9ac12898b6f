ghost use Rattle.std.specs.Prelude.{◌≡◌, ◌++◌, ◌∷◌, [], ℕ, List, IfOk};
ghost use Rattle.std.specs.HashMap.{get_by_text};
ghost use Rattle.std.specs.Str.{bytes_eq};
ghost use Rattle.am_term.specs.NameLists.{is_among};
ghost use Rattle.am_exec.specs.Places.{first_place, or_at};

use am_term::{Name, NoMemory};
use sqlite_items::Items;
use std::alloc::Global;
use std::collections::HashMap;
use std::marker::Model;

/// Names in order, which contracts see as a list, with the place of each in a map.
#[derive(Drop)]
pub struct NameIndex {
    names: Items<Name>,
    places: HashMap<String, usize>,
}

impl Model for NameIndex {
    ghost use Rattle.std.specs.Prelude.{List, ℕ, ◌≡◌};
    ghost use Rattle.std.specs.HashMap.{get_by_text};
    ghost use Rattle.am_exec.specs.Places.{first_place};

    ghost Value = { List (List ℕ) };

    ghost view = { λ i. i.names };

    ghost invariant = { λ i. (q : List ℕ) → get_by_text i.places q ≡ first_place q i.names };
}

impl NameIndex {
    /// No names. Takes no memory.
    pub fn new(alloc: Global) -> NameIndex
        ensures { result ≡ [] }
    {
        NameIndex {
            names: Items::new(alloc),
            places: HashMap::new(alloc),
        }
    }

    /// How many names stand before the first that is this one, if one is. Takes no memory.
    pub fn place(&self, name: &Name) -> Option<usize>
        ensures { result ≡ first_place name.now self.now }
    {
        self.places.get(name.as_str()).copied()
    }

    /// Whether the name is one of these. Takes no memory.
    #[tactic(auto, using(crate::proofs::Indexed::indexing))]
    pub fn contains(&self, name: &Name) -> bool
        ensures { result ≡ is_among name.now self.now }
    {
        self.place(name).is_some()
    }

    /// The names with one more at the end.
    pub fn with(self, alloc: Global, name: &Name) -> Result<NameIndex, NoMemory>
        ensures { IfOk result (λ index. index ≡ self ++ name.now ∷ []) }
    {
        let NameIndex {
            mut names,
            mut places,
        } = self;
        places = placed(alloc, places, name, names.len())?;
        names.push(Name::new(alloc, name.as_str())?)?;
        Ok(NameIndex { names, places })
    }
}

// The places with one more, where the name has none yet.
fn placed(
    alloc: Global,
    places: HashMap<String, usize>,
    name: &Name,
    at: usize,
) -> Result<HashMap<String, usize>, NoMemory>
    ensures { IfOk result (λ new. (q : List ℕ)
        → get_by_text new q ≡ or_at (get_by_text places q) (bytes_eq q name.now) at) }
{
    if places.get(name.as_str()).is_some() {
        return Ok(places);
    }
    let mut made = places;
    made.insert(String::from_str(alloc, name.as_str())?, at)?;
    Ok(made)
}
