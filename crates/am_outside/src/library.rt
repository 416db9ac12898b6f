ghost use Rattle.std.specs.Prelude.{◌≡◌, ◌≢◌, ◌<◌, ◌≤◌, ℕ, List, [], Option, length};
ghost use Rattle.am_outside.specs.Causes.{Rose};
ghost use Rattle.am_outside.specs.Growth.{WhereTold};

use crate::answer::Fetched;

/// Bytes that stand under names.
pub trait Library {
    /// The bytes that stand under a name, where the library tells them.
    ghost told: { Self → List ℕ → Option (List ℕ) };

    /// Whether a fetch of the name can't fail.
    ghost sure: { Self → List ℕ → Type 0 };

    /// How many faults there were; it stays at the last value of 64 bits.
    ghost faults: { Self → ℕ };

    /// Reads the bytes under the name to their end into `into`, at most `limit` bytes.
    ///
    /// `Done`: they are there. `TooLong`: there are more. `Failed`: the library had a fault. After an
    /// answer other than `Done`, `into` is empty. `NoMemory` may come whatever stands there.
    fn fetch(&mut self, name: &str, limit: usize, into: &mut Vec<u8>) -> Fetched
        requires empty { into.old.items ≡ [] }
        requires small { limit ≤ 16777216 }
        ensures fits { result ≡ Fetched.Done → length into.new.items ≤ limit }
        ensures bytes { result ≡ Fetched.Done → WhereTold (told self.old name.now) (λ b. into.new.items ≡ b) }
        ensures too_long { result ≡ Fetched.TooLong → WhereTold (told self.old name.now) (λ b. limit < length b) }
        ensures over { WhereTold (told self.old name.now) (λ b. limit < length b → result ≢ Fetched.Done) }
        ensures failed { result ≡ Fetched.Failed → Rose (faults self.old) (faults self.new) }
        ensures later { faults self.old ≤ faults self.new }
        ensures kept { result ≢ Fetched.Failed → faults self.new ≡ faults self.old }
        ensures sure { sure self.old name.now → result ≢ Fetched.Failed }
        ensures emptied { result ≢ Fetched.Done → into.new.items ≡ [] }
        ensures told_stays { told self.new ≡ told self.old }
        ensures sure_stays { (n : List ℕ) → sure self.old n → sure self.new n };
}
