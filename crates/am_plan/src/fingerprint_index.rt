ghost use Rattle.std.specs.Prelude.{◌≡◌, ◌++◌, ◌∷◌, [], MatchResult};
ghost use Rattle.am_plan.specs.Fingerprints.{place_from};

use crate::places::note;
use am_term::NoMemory;
use sqlite_items::Items;
use std::alloc::Global;
use std::collections::HashMap;
use std::marker::Model;

/// Fingerprints in order, which contracts see as their list, with the first place of each: so a thing is
/// compared with those of its own fingerprint alone, of which there is hardly ever another.
#[derive(Drop)]
pub struct FingerprintIndex {
    fingerprints: Items<u64>,
    places: HashMap<u64, usize>,
}

impl Model for FingerprintIndex {
    ghost use Rattle.std.specs.Prelude.{◌≡◌, ℕ, List, nat_eq};
    ghost use Rattle.std.specs.HashMap.{get};
    ghost use Rattle.am_plan.specs.Fingerprints.{place_from};

    ghost Value = { List ℕ };

    ghost view = { λ s. s.fingerprints };

    ghost invariant = { λ s. (p : ℕ) → get nat_eq s.places p ≡ place_from p 0 s.fingerprints };
}

impl FingerprintIndex {
    /// No fingerprints. Takes no memory.
    pub fn new(alloc: Global) -> FingerprintIndex
        ensures { result ≡ [] }
    {
        FingerprintIndex {
            fingerprints: Items::new(alloc),
            places: HashMap::new(alloc),
        }
    }

    /// The fingerprint is behind those before. Without memory nothing changes.
    pub fn push(&mut self, fingerprint: u64) -> Result<(), NoMemory>
        ensures { MatchResult result (λ _. self.new ≡ self.old ++ fingerprint ∷ []) (λ _. self.new ≡ self.old) }
    {
        let place = self.fingerprints.len();
        self.fingerprints.push(fingerprint)?;
        if note(fingerprint, place, &mut self.places).is_err() {
            self.fingerprints.pop();
            return Err(NoMemory);
        }
        Ok(())
    }

    /// The first place of a fingerprint, if it is one of them. Takes no memory.
    pub fn place(&self, fingerprint: u64) -> Option<usize>
        ensures { result ≡ place_from fingerprint 0 self.now }
    {
        self.places.get(&fingerprint).copied()
    }
}
