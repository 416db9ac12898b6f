ghost use Rattle.std.specs.Prelude.{◌≡◌, ◌≢◌, ◌+◌, ◌<◌, ◌≤◌, [], None, length};
ghost use Rattle.am_outside.specs.Calls.{counted_up};
ghost use Rattle.am_outside.specs.Growth.{WhereTold};

use crate::answer::Fetched;
use crate::library::Library;
use std::fs::File;
use std::io::Read;
use std::rt::Files;

/// The files of the system, by path. It tells nothing of what stands in them, and is sure of none: a
/// directory, a missing file and a file without permission fail. Its count stays at the last value of
/// 64 bits.
#[derive(Drop)]
pub struct Folder<'a, R: Files> {
    rt: &'a R,
    pub faults: u64,
}

impl<'a, R: Files> Folder<'a, R> {
    /// The files that this runtime reaches, before the first fault.
    pub fn new(rt: &'a R) -> Folder<'a, R>
        ensures { result.faults ≡ 0 }
    {
        Folder { rt, faults: 0 }
    }
}

impl<R: Files> Library for Folder<'_, R> {
    ghost told = { λ _ _. None };

    ghost sure = { λ _ _. ⊥ };

    ghost faults = { λ folder. folder.faults };

    fn fetch(&mut self, name: &str, limit: usize, into: &mut Vec<u8>) -> Fetched
        requires empty { into.old.items ≡ [] }
        requires small { limit ≤ 16777216 }
        ensures fits { result ≡ Fetched.Done → length into.new.items ≤ limit }
        ensures emptied { result ≢ Fetched.Done → into.new.items ≡ [] }
        ensures counts { result ≡ Fetched.Failed → self.new.faults ≡ counted_up self.old.faults }
        ensures none_counted { result ≢ Fetched.Failed → self.new.faults ≡ self.old.faults }
        ensures later { self.old.faults ≤ self.new.faults }
    {
        let fetched = read_path(self.rt, name, limit, into);
        match fetched {
            Fetched::Done => return Fetched::Done,
            Fetched::Failed => self.faults = self.faults.saturating_add(1),
            _ => {}
        }
        into.clear();
        fetched
    }
}

/// Reads the file of that path to its end, at most `limit` bytes.
fn read_path<R: Files>(rt: &R, path: &str, limit: usize, into: &mut Vec<u8>) -> Fetched
    requires empty { into.old.items ≡ [] }
    requires small { limit ≤ 16777216 }
    ensures fits { result ≡ Fetched.Done → length into.new.items ≤ limit }
{
    match File::open(rt, path) {
        Ok(mut file) => read_some(&mut file, limit, into),
        Err(_) => Fetched::Failed,
    }
}

/// Reads to the end, and at most one byte more than `limit`, which is then too long.
pub(crate) fn read_some<F: Read>(file: &mut F, limit: usize, into: &mut Vec<u8>) -> Fetched
    requires empty { into.old.items ≡ [] }
    requires small { limit ≤ 16777216 }
    ensures fits { result ≡ Fetched.Done → length into.new.items ≤ limit }
    ensures bytes { result ≡ Fetched.Done → WhereTold (F.remaining file.old) (λ b. into.new.items ≡ b) }
    ensures one_more { result ≡ Fetched.TooLong → length into.new.items ≡ limit + 1 }
    ensures too_long { result ≡ Fetched.TooLong → WhereTold (F.remaining file.old) (λ b. limit < length b) }
{
    let mut buffer = [0u8; 4096];
    while into.len() <= limit {
        let want = (limit - into.len() + 1).min(buffer.len());
        match file.read(&mut buffer[..want]) {
            Ok(0) => return Fetched::Done,
            Ok(count) => {
                if into.extend_from_slice(&buffer[..count]).is_err() {
                    return Fetched::NoMemory;
                }
            }
            Err(_) => return Fetched::Failed,
        }
    }
    Fetched::TooLong
}
