ghost use Rattle.std.specs.Prelude.{◌≡◌, ◌==◌, ℕ, nat_eq, drop, if◌then◌else◌, Some, None, MatchResult};
ghost use Rattle.std.specs.HashMap.{get};
ghost use Rattle.std.specs.Option.{option_or};

use am_term::NoMemory;
use std::collections::HashMap;

/// The place is the fingerprint's, unless that has one. Without memory nothing changes.
pub fn note(
    fingerprint: u64,
    place: usize,
    places: &mut HashMap<u64, usize>,
) -> Result<(), NoMemory>
    ensures { MatchResult result (λ _. (p : ℕ)
        → get nat_eq places.new p ≡ option_or (get nat_eq places.old p)
        (if p == fingerprint then Some place else None)) (λ _. (p : ℕ)
        → get nat_eq places.new p ≡ get nat_eq places.old p) }
{
    if places.contains_key(&fingerprint) {
        return Ok(());
    }
    places.insert(fingerprint, place)?;
    Ok(())
}

/// What stands at the place and behind it. Takes no memory.
pub fn behind<T>(items: &[T], place: usize) -> &[T]
    ensures { result.now ≡ drop place items.now }
{
    if place < items.len() {
        &items[place..]
    } else {
        &[]
    }
}
