ghost use Rattle.std.specs.Prelude.{◌≡◌, ◌≢◌, ◌<◌, ◌≤◌, ℕ, List, length};
ghost use Rattle.am_outside.specs.Causes.{Rose};
ghost use Rattle.am_outside.specs.Growth.{Grows, GrowsByPart, WhereTold};

use super::folder::read_some;
use super::{Fetched, Folder, Library, Page, Put, QuietShelf, Shelf, Sink, StdErr, StdOut, Stream};
use am_term::{Name, NoMemory};
use std::alloc::Global;
use std::io::{Error, ErrorKind, Read, Write};
use std::os::unix::fs::PermissionsExt;
use std::test::Fail;
use std::{fs, io};

/// What a copy came to.
#[derive(Clone, Copy, Debug, PartialEq, Eq)]
enum Copied {
    Whole,
    Long,
    Unread,
    Unwritten,
    NoMemory,
}

/// Puts the bytes under a name, of which there are at most 3, to a sink. Any library and any sink.
fn copy<L: Library, O: Sink>(alloc: Global, library: &mut L, name: &str, out: &mut O) -> Copied
    ensures whole { result ≡ Copied.Whole
        → WhereTold (L.told library.old name.now) (λ b. Grows (O.held out.old) (O.held out.new) b) }
    ensures long { result ≡ Copied.Long → WhereTold (L.told library.old name.now) (λ b. 3 < length b) }
    ensures not_whole { WhereTold (L.told library.old name.now) (λ b. 3 < length b → result ≢ Copied.Whole) }
    ensures unread { result ≡ Copied.Unread → Rose (L.faults library.old) (L.faults library.new) }
    ensures read { result ≢ Copied.Unread → L.faults library.new ≡ L.faults library.old }
    ensures sure { L.sure library.old name.now → result ≢ Copied.Unread }
    ensures unwritten { result ≡ Copied.Unwritten → Rose (O.faults out.old) (O.faults out.new) }
    ensures part { result ≡ Copied.Unwritten
        → WhereTold (L.told library.old name.now) (λ b. GrowsByPart (O.held out.old) (O.held out.new) b) }
    ensures written { 3 ≤ O.sure out.old → result ≢ Copied.Unwritten }
    ensures complete { WhereTold (L.told library.old name.now) (λ b. length b ≤ 3 → L.sure library.old name.now
        → 3 ≤ O.sure out.old → result ≢ Copied.NoMemory → result ≡ Copied.Whole) }
    ensures told_stays { L.told library.new ≡ L.told library.old }
{
    let mut bytes = Vec::new(alloc);
    match library.fetch(name, 3, &mut bytes) {
        Fetched::Done => match out.put(&bytes) {
            Put::Done => Copied::Whole,
            Put::Failed => Copied::Unwritten,
        },
        Fetched::TooLong => Copied::Long,
        Fetched::Failed => Copied::Unread,
        Fetched::NoMemory => Copied::NoMemory,
    }
}

fn bytes_of(alloc: Global, text: &str) -> Result<Vec<u8>, NoMemory> {
    let mut bytes = Vec::new(alloc);
    bytes.extend_from_slice(text.as_bytes())?;
    Ok(bytes)
}

fn files(alloc: Global) -> Result<Vec<(Name, Vec<u8>)>, NoMemory> {
    let mut files = Vec::new(alloc);
    for (name, text) in [("ab", "x"), ("a", "one"), ("a", "two"), ("b", "four")] {
        files.push((Name::new(alloc, name)?, bytes_of(alloc, text)?))?;
    }
    Ok(files)
}

#[test]
fn memory(rt: HostRuntime) -> Result<(), Fail> {
    let mut fail = Vec::new(rt.alloc());
    fail.push(3u64)?;
    let mut shelf = Shelf::new(files(rt.alloc())?, fail);
    let mut quiet = QuietShelf::new(files(rt.alloc())?);
    let mut plan = Vec::new(rt.alloc());
    for pair in [(4u64, 1u64), (4, 3), (6, 9)] {
        plan.push(pair)?;
    }
    let mut page = Page::new(rt.alloc(), 9, plan)?;
    for (name, of_shelf, of_quiet, held) in [
        // The first of two files, and all that stands there.
        ("a", Copied::Whole, Copied::Whole, "oneone"),
        // One byte too many, twice.
        ("b", Copied::Long, Copied::Long, "oneone"),
        // The third call fails as planned. The page's third put doesn't.
        ("ab", Copied::Unread, Copied::Whole, "oneonex"),
        // No such name: for the quiet shelf no bytes, of which the plan takes all and fails.
        ("c", Copied::Unread, Copied::Unwritten, "oneonex"),
        // The room is 9: the fifth put takes 2 bytes of 3. The sixth is planned too, and takes none.
        ("a", Copied::Unwritten, Copied::Unwritten, "oneonexon"),
    ] {
        assert_eq!(rt;
            copy(rt.alloc(), &mut shelf, name, &mut page),
            of_shelf,
            "{name}"
        );
        assert_eq!(rt;
            copy(rt.alloc(), &mut quiet, name, &mut page),
            of_quiet,
            "{name}"
        );
        assert_eq!(rt; page.held.as_slice(), held.as_bytes(), "{name}");
    }
    assert_eq!(rt; (shelf.calls, shelf.faults), (5, 2));
    assert_eq!(rt; (page.calls, page.faults), (6, 3));
    Ok(())
}

/// Gives one byte a read, so many in all, and then the end or an error.
#[derive(Drop)]
struct Drops {
    left: usize,
    fails: bool,
}

impl Read for Drops {
    fn read(&mut self, buf: &mut [u8]) -> io::Result<usize> {
        if self.left == 0 && self.fails {
            return Err(Error::from(ErrorKind::BrokenPipe));
        }
        if self.left == 0 || buf.is_empty() {
            return Ok(0);
        }
        buf[0] = b'x';
        self.left -= 1;
        Ok(1)
    }
}

#[test]
fn folder(rt: HostRuntime) -> Result<(), Fail> {
    fs::write(&rt, "four", "four")?;
    fs::write(&rt, "secret", "four")?;
    fs::set_permissions(&rt, "secret", fs::Permissions::from_mode(0))?;
    let mut folder = Folder::new(&rt);
    for (name, limit, want, text, faults) in [
        ("four", 4, Fetched::Done, "four", 0u64),
        ("four", 3, Fetched::TooLong, "", 0),
        ("none", 4, Fetched::Failed, "", 1),
        (".", 4, Fetched::Failed, "", 2),
        ("four", 16777216, Fetched::Done, "four", 2),
    ] {
        let mut into = Vec::new(rt.alloc());
        assert_eq!(rt; folder.fetch(name, limit, &mut into), want, "{name}");
        assert_eq!(rt; into.as_slice(), text.as_bytes(), "{name}");
        assert_eq!(rt; folder.faults, faults, "{name}");
    }
    // Root may read a file without permission.
    if fs::File::open(&rt, "secret").is_err() {
        let mut into = Vec::new(rt.alloc());
        assert_eq!(rt; folder.fetch("secret", 4, &mut into), Fetched::Failed);
        assert_eq!(rt; folder.faults, 3);
    }
    for (left, fails, want) in [
        (4usize, false, Fetched::Done),
        (5, false, Fetched::TooLong),
        (4, true, Fetched::Failed),
        (usize::MAX, true, Fetched::TooLong),
    ] {
        let mut into = Vec::new(rt.alloc());
        let mut drops = Drops { left, fails };
        assert_eq!(rt; read_some(&mut drops, 4, &mut into), want, "{left}");
    }
    Ok(())
}

/// Takes at most so many bytes a write, and where it holds `cut` bytes it fails: by an error, or by
/// taking none.
#[derive(Drop)]
struct Choppy {
    got: Vec<u8>,
    most: usize,
    cut: usize,
    errs: bool,
}

impl Write for Choppy {
    fn write(&mut self, buf: &[u8]) -> io::Result<usize> {
        if self.got.len() == self.cut {
            if self.errs {
                return Err(Error::from(ErrorKind::BrokenPipe));
            }
            return Ok(0);
        }
        let count = buf.len().min(self.most);
        self.got.extend_from_slice(&buf[..count])?;
        Ok(count)
    }

    fn flush(&mut self) -> io::Result<()> {
        Ok(())
    }
}

#[test]
fn streams(rt: HostRuntime) -> Result<(), Fail> {
    for (most, cut, errs, want, got, faults) in [
        (2usize, 9usize, true, Put::Done, "abcde", 0u64),
        (2, 4, true, Put::Failed, "abcd", 1),
        (2, 4, false, Put::Failed, "abcd", 1),
        (9, 0, true, Put::Failed, "", 1),
        (9, 5, true, Put::Done, "abcde", 0),
    ] {
        let got_none = Vec::new(rt.alloc());
        let mut stream = Stream::new(Choppy {
            got: got_none,
            most,
            cut,
            errs,
        });
        assert_eq!(rt; stream.put(b"abcde"), want, "{most} {cut} {errs}");
        assert_eq!(rt;
            stream.writer.got.as_slice(),
            got.as_bytes(),
            "{most} {cut} {errs}"
        );
        assert_eq!(rt; stream.faults, faults, "{most} {cut} {errs}");
    }
    Ok(())
}

#[test]
fn standard_output(rt: HostRuntime) {
    let mut out = StdOut::new(rt.stdout());
    assert_eq!(rt; out.put(b"out\n"), Put::Done);
    assert_eq!(rt; out.faults, 0);
}

#[test]
fn standard_error(rt: HostRuntime) {
    let mut err = StdErr::new(rt.stderr());
    assert_eq!(rt; err.put(b"err\n"), Put::Done);
    assert_eq!(rt; err.faults, 0);
}
