ghost use Rattle.std.specs.Prelude.{◌≡◌, ◌+◌, ◌<◌, ◌≤◌, ℕ, List, Option, None, IsTrue, take, length};
ghost use Rattle.am_outside.specs.Calls.{counted_up};
ghost use Rattle.am_outside.specs.Growth.{Grows, GrowsByPart};
ghost use Rattle.std.specs.Io.KnownBytes.{Appends};

use crate::answer::Put;
use crate::sink::Sink;
use std::io::{Stderr, Stdout, Write};

/// A writer as a sink. It tells nothing of what was written, and is sure of nothing: an error of the
/// writer fails, and a write of 0 bytes too. Its count stays at the last value of 64 bits.
#[derive(Drop)]
pub struct Stream<W> {
    pub writer: W,
    pub faults: u64,
}

/// The standard output as a sink.
pub type StdOut = Stream<Stdout>;

/// The standard error as a sink.
pub type StdErr = Stream<Stderr>;

impl<W> Stream<W> {
    /// The sink over this writer, before the first fault.
    pub fn new(writer: W) -> Stream<W>
        ensures { result ≡ record { writer = writer; faults = 0 } }
    {
        Stream { writer, faults: 0 }
    }
}

impl<W: Write> Sink for Stream<W> {
    ghost held = { λ _. None };

    ghost faults = { λ stream. stream.faults };

    ghost sure = { λ _. 0 };

    fn put(&mut self, bytes: &[u8]) -> Put
        ensures writes { result ≡ Put.Done
            → Appends (W.contents self.old.writer) (W.contents self.new.writer) bytes.now }
        ensures writes_part { (n : ℕ) × Appends (W.contents self.old.writer) (W.contents self.new.writer)
            (take n bytes.now) }
        ensures counts { result ≡ Put.Failed → self.new.faults ≡ counted_up self.old.faults }
        ensures none_counted { result ≡ Put.Done → self.new.faults ≡ self.old.faults }
        ensures later { self.old.faults ≤ self.new.faults }
    {
        if write_each(&mut self.writer, bytes) {
            return Put::Done;
        }
        self.faults = self.faults.saturating_add(1);
        Put::Failed
    }
}

/// Whether the writer took all the bytes, in as many writes as it needed.
fn write_each<W: Write>(writer: &mut W, bytes: &[u8]) -> bool
    ensures all { IsTrue result → Appends (W.contents writer.old) (W.contents writer.new) bytes.now }
    ensures part { (n : ℕ) × Appends (W.contents writer.old) (W.contents writer.new) (take n bytes.now) }
{
    let mut done = 0;
    while done < bytes.len() {
        match writer.write(&bytes[done..]) {
            Ok(0) => return false,
            Ok(count) => done += count,
            Err(_) => return false,
        }
    }
    true
}
