ghost use Rattle.std.specs.Prelude.{◌≡◌, ◌≢◌, ◌↔◌, ◌<◌, ◌≤◌, ◌==◌, ℕ, List, [], Option, None, Some, Bool, cond, IsSome, IsTrue, length};
ghost use Rattle.std.specs.List.{list_any};
ghost use Rattle.std.specs.Option.{option_map};
ghost use Rattle.am_outside.specs.Calls.{all_past, counted_up};
ghost use Rattle.am_outside.specs.Files.{file_of, fails_at};
ghost use Rattle.am_outside.specs.Growth.{WhereTold};

use crate::answer::Fetched;
use crate::library::Library;
use am_term::Name;

/// Files in memory, and the numbers of the calls that are to fail, from 1. Of two files with one name
/// the first counts. Both counts stay at the last value of 64 bits.
#[derive(Debug, Drop)]
pub struct Shelf {
    pub files: Vec<(Name, Vec<u8>)>,
    pub fail: Vec<u64>,
    pub calls: u64,
    pub faults: u64,
}

impl Shelf {
    /// The shelf of these files before its first call. Takes no memory.
    pub fn new(files: Vec<(Name, Vec<u8>)>, fail: Vec<u64>) -> Shelf
        ensures { result ≡ record { files = files; fail = fail; calls = 0; faults = 0 } }
    {
        Shelf {
            files,
            fail,
            calls: 0,
            faults: 0,
        }
    }
}

impl Library for Shelf {
    ghost told = { λ shelf name. file_of shelf.files.items name };

    ghost sure = { λ shelf name. IsSome (file_of shelf.files.items name)
        × IsTrue (all_past shelf.calls shelf.fail.items) };

    ghost faults = { λ shelf. shelf.faults };

    #[tactic(auto, using(crate::proofs::Past::all_past_later, crate::proofs::Past::sure_succeeds))]
    fn fetch(&mut self, name: &str, limit: usize, into: &mut Vec<u8>) -> Fetched
        requires empty { into.old.items ≡ [] }
        requires small { limit ≤ 16777216 }
        ensures fails { (result ≡ Fetched.Failed) ↔ IsTrue
            (fails_at self.old.files.items self.old.fail.items self.new.calls name.now) }
        ensures done { result ≡ Fetched.Done → Some into.new.items ≡ file_of self.old.files.items name.now }
        ensures fits { result ≡ Fetched.Done → length into.new.items ≤ limit }
        ensures too_long { result ≡ Fetched.TooLong → WhereTold (file_of self.old.files.items name.now) (λ b.
            limit < length b) }
        ensures long { result ≢ Fetched.Failed → WhereTold (file_of self.old.files.items name.now) (λ b.
            limit < length b → result ≡ Fetched.TooLong) }
        ensures emptied { result ≢ Fetched.Done → into.new.items ≡ [] }
        ensures calls { self.new.calls ≡ counted_up self.old.calls }
        ensures counts { result ≡ Fetched.Failed → self.new.faults ≡ counted_up self.old.faults }
        ensures none_counted { result ≢ Fetched.Failed → self.new.faults ≡ self.old.faults }
        ensures files_stay { self.new.files ≡ self.old.files }
        ensures fail_stays { self.new.fail ≡ self.old.fail }
        ensures later { self.old.faults ≤ self.new.faults }
        ensures sure { IsSome (file_of self.old.files.items name.now)
            × IsTrue (all_past self.old.calls self.old.fail.items) → result ≢ Fetched.Failed }
        ensures sure_stays { (n : List ℕ) → IsSome (file_of self.old.files.items n)
            × IsTrue (all_past self.old.calls self.old.fail.items) → IsSome (file_of self.new.files.items n)
            × IsTrue (all_past self.new.calls self.new.fail.items) }
    {
        self.calls = self.calls.saturating_add(1);
        match file_at(&self.files, &self.fail, self.calls, name) {
            Some(bytes) => copy_bytes(bytes, limit, into),
            None => {
                self.faults = self.faults.saturating_add(1);
                Fetched::Failed
            }
        }
    }
}

/// The bytes of the first file of that name.
pub(crate) fn find_file<'a>(files: &'a [(Name, Vec<u8>)], name: &str) -> Option<&'a [u8]>
    ensures { option_map (λ bytes. bytes.now) result ≡ file_of files.now name.now }
{
    files
        .iter()
        .find(|file| file.0.as_str() == name)
        .map(|file| file.1.as_slice())
}

/// The bytes for the call of that number; None where the call fails.
fn file_at<'a>(
    files: &'a [(Name, Vec<u8>)],
    fail: &[u64],
    call: u64,
    name: &str,
) -> Option<&'a [u8]>
    ensures { option_map (λ bytes. bytes.now) result ≡ cond (fails_at files.now fail.now call name.now) None
        (file_of files.now name.now) }
{
    if fail.contains(&call) {
        return None;
    }
    find_file(files, name)
}

/// Copies the bytes, where they are within the limit and there is memory.
pub(crate) fn copy_bytes(bytes: &[u8], limit: usize, into: &mut Vec<u8>) -> Fetched
    requires { into.old.items ≡ [] }
    ensures not_failed { result ≢ Fetched.Failed }
    ensures done { result ≡ Fetched.Done → into.new.items ≡ bytes.now }
    ensures over { limit < length bytes.now → result ≡ Fetched.TooLong }
    ensures too_long { result ≡ Fetched.TooLong → limit < length bytes.now }
    ensures emptied { result ≢ Fetched.Done → into.new.items ≡ [] }
{
    if bytes.len() > limit {
        return Fetched::TooLong;
    }
    match into.extend_from_slice(bytes) {
        Ok(()) => Fetched::Done,
        Err(_) => Fetched::NoMemory,
    }
}
