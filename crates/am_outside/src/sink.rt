ghost use Rattle.std.specs.Prelude.{◌≡◌, ◌+◌, ◌<◌, ◌≤◌, ℕ, List, Option, length};
ghost use Rattle.am_outside.specs.Causes.{Rose};
ghost use Rattle.am_outside.specs.Growth.{Grows, GrowsByPart};

use crate::answer::Put;

/// A place that takes bytes.
pub trait Sink {
    /// The bytes that it holds, where it tells them.
    ghost held: { Self → Option (List ℕ) };

    /// How many faults there were; it stays at the last value of 64 bits.
    ghost faults: { Self → ℕ };

    /// How many bytes can still be put without a failure; 0 where nothing is known.
    ghost sure: { Self → ℕ };

    /// Puts the bytes at the end of what is held.
    ///
    /// `Done`: all of them. `Failed`: the sink had a fault, and holds some first bytes of them.
    fn put(&mut self, bytes: &[u8]) -> Put
        ensures done { result ≡ Put.Done → Grows (held self.old) (held self.new) bytes.now }
        ensures part { result ≡ Put.Failed → GrowsByPart (held self.old) (held self.new) bytes.now }
        ensures failed { result ≡ Put.Failed → Rose (faults self.old) (faults self.new) }
        ensures kept { result ≡ Put.Done → faults self.new ≡ faults self.old }
        ensures later { faults self.old ≤ faults self.new }
        ensures sure { 0 < sure self.old → length bytes.now ≤ sure self.old → result ≡ Put.Done }
        ensures sure_left { result ≡ Put.Done → 0 < sure self.old → length bytes.now ≤ sure self.old
            → sure self.old ≤ sure self.new + length bytes.now };
}
