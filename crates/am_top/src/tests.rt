//! What is printed and said where a put or a fetch fails, and what a chooser is shown. Other rows are those of
//! `tools/rows`.

ghost use Rattle.std.specs.Prelude.{◌≡◌, ◌≢◌, length, IfOk};
ghost use Rattle.am_agenda.specs.Picks.{lightest_place};
ghost use Rattle.am_agenda.specs.Within.{lightest_below};

use crate::{Status, run};
use am_agenda::{ByAge, ByWeight, Chooser, Mixed, WaitRow};
use am_outside::{Page, Shelf};
use am_term::Name;
use am_world::TrivialWorld;
use std::alloc::{AllocGlobal, Global};
use std::cell::RefCell;
use std::process::Abort;
use std::rc::Rc;
use std::test::Fail;

const TWO_ROUTINES: &str =
    "(theory 1)\n(sort utc (char 32))\n(sort et double)\n(routine UTC2ET (utc) (utc2et et))\n(routine SCALE (et) (scale et))\n";

const CONV: &str = "(diagram CONV)\n(input U utc)\n(output E et)\n(require (= E (utc2et U)))\n";

const CONV_TEXT: &str =
    "C (proof 1)\nC (1 (goal) (or (not (= et?0 (utc2et U)))) (answer et?0))\nC (2 (reflex 1 1 (with (utc2et U))) (or) (answer (utc2et U)))\n      SUBROUTINE CONV(U, E)\n      CHARACTER*(*) U\n      DOUBLE PRECISION E\n      CALL UTC2ET(U, E)\n      END\n";

/// What a run left: the status, what the two pages hold, and what the first chooser noted.
#[derive(Drop)]
struct Outcome {
    status: Status,
    out: Vec<u8>,
    err: Vec<u8>,
    notes: Rc<RefCell<String>>,
}

fn words_of(alloc: Global, words: &[&str]) -> Result<Vec<String>, Fail> {
    let mut made = Vec::new(alloc);
    for word in words {
        made.push(String::from_str(alloc, word)?)?;
    }
    Ok(made)
}

fn file(alloc: Global, name: &str, bytes: &[u8]) -> Result<(Name, Vec<u8>), Fail> {
    let name = Name::new(alloc, name)?;
    let bytes = Vec::from_slice(alloc, bytes)?;
    Ok((name, bytes))
}

/// The two files and the text of CONV, with a fetch of a number that fails.
fn shelf_of(alloc: Global, fail: Option<u64>) -> Result<Shelf, Fail> {
    let mut files = Vec::new(alloc);
    files.push(file(alloc, "t", TWO_ROUTINES.as_bytes())?)?;
    files.push(file(alloc, "d", CONV.as_bytes())?)?;
    files.push(file(alloc, "p", CONV_TEXT.as_bytes())?)?;
    let mut failing = Vec::new(alloc);
    if let Some(call) = fail {
        failing.push(call)?;
    }
    Ok(Shelf::new(files, failing))
}

/// Picks as `ByWeight`, and notes the number and the weight of each row that it is shown, with a bar before each list.
#[derive(Drop)]
struct Noting {
    notes: Rc<RefCell<String>>,
}

impl Chooser for Noting {
    ghost pick_after = { λ c past list. lightest_place list };

    ghost below = { λ c past list some. lightest_below list some };

    fn choose(&mut self, rows: &[WaitRow]) -> usize {
        if let Ok(mut notes) = self.notes.try_borrow_mut() {
            note(&mut notes, rows);
        }
        ByWeight::new().choose(rows)
    }
}

fn note(notes: &mut String, rows: &[WaitRow]) {
    let mut is_noted = notes.push_str(" |").is_ok();
    for row in rows {
        is_noted = is_noted && write!(notes, " {}:{}", row.number, row.weight).is_ok();
    }
}

/// The choosers of the program, in order, with one that notes as the first.
fn choosers_of(alloc: Global, notes: Rc<RefCell<String>>) -> Result<Vec<Box<dyn Chooser>>, Fail>
    ensures { IfOk result (λ choosers. length choosers.items ≡ 3) }
{
    let by_weight: Box<dyn Chooser> = Box::new(alloc, Noting { notes })?;
    let by_age: Box<dyn Chooser> = Box::new(alloc, ByAge::new())?;
    let mixed: Box<dyn Chooser> = Box::new(alloc, Mixed::new())?;
    let mut choosers = Vec::new(alloc);
    choosers.push(by_weight)?;
    choosers.push(by_age)?;
    choosers.push(mixed)?;
    Ok(choosers)
}

/// A page whose put of a number takes some bytes and fails.
fn page_of(alloc: Global, room: u64, fail: Option<(u64, u64)>) -> Result<Page, Fail> {
    let mut failing = Vec::new(alloc);
    if let Some(pair) = fail {
        failing.push(pair)?;
    }
    Ok(Page::new(alloc, room, failing)?)
}

/// Runs words over these files, with such pages for texts and for messages.
fn ran(
    alloc: Global,
    words: &[&str],
    mut shelf: Shelf,
    out_fail: Option<(u64, u64)>,
    err_fail: Option<(u64, u64)>,
) -> Result<Outcome, Fail> {
    let words = words_of(alloc, words)?;
    let mut out = page_of(alloc, 65_536, out_fail)?;
    let mut err = page_of(alloc, 1_024, err_fail)?;
    let notes = Rc::new(alloc, RefCell::new(String::new(alloc)))?;
    let choosers = choosers_of(alloc, Rc::clone(&notes)?)?;
    let status = run(
        alloc,
        words.as_slice(),
        &mut shelf,
        &mut out,
        &mut err,
        choosers,
        &TrivialWorld,
    );
    let out = Vec::from_slice(alloc, out.held.as_slice())?;
    let err = Vec::from_slice(alloc, err.held.as_slice())?;
    Ok(Outcome {
        status,
        out,
        err,
        notes,
    })
}

/// That a run left this status, this text and this message.
fn expect(rt: &impl Abort, outcome: Outcome, status: Status, out: &str, err: &str) {
    assert!(rt; outcome.status == status);
    assert!(rt; outcome.out.as_slice() == out.as_bytes());
    assert!(rt; outcome.err.as_slice() == err.as_bytes());
}

const MAKE: [&str; 3] = ["make", "t", "d"];

const CHECK: [&str; 4] = ["check", "t", "d", "p"];

#[test]
fn answers_where_nothing_fails(rt: HostRuntime) -> Result<(), Fail> {
    let shelf = shelf_of(rt.alloc(), None)?;
    let made = ran(rt.alloc(), &MAKE, shelf, None, None)?;
    expect(&rt, made, Status::Ok, CONV_TEXT, "");
    let shelf = shelf_of(rt.alloc(), None)?;
    let checked = ran(rt.alloc(), &CHECK, shelf, None, None)?;
    expect(&rt, checked, Status::Ok, "accepted\n", "");
    let shelf = shelf_of(rt.alloc(), None)?;
    let shown = ran(rt.alloc(), &["theory", "t"], shelf, None, None)?;
    expect(&rt, shown, Status::Ok, TWO_ROUTINES, "");
    let shelf = shelf_of(rt.alloc(), None)?;
    let summed = ran(rt.alloc(), &["demo", "3"], shelf, None, None)?;
    let line = "demo 3: found, 4 inferences, 3 calls, 8 proof rows\n";
    expect(&rt, summed, Status::Ok, line, "");
    Ok(())
}

/// That the first chooser was shown these lists while words were carried out, and dropped.
fn expect_noted(rt: &(impl Abort + AllocGlobal), words: &[&str], shown: &str) -> Result<(), Fail> {
    let shelf = shelf_of(rt.alloc(), None)?;
    let outcome = ran(rt.alloc(), words, shelf, None, None)?;
    assert!(rt; Rc::strong_count(&outcome.notes) == 1);
    let notes = outcome.notes.try_borrow();
    assert!(rt; notes.is_ok());
    if let Ok(notes) = notes {
        assert!(rt; notes.as_str() == shown);
    }
    Ok(())
}

#[test]
fn shows_the_first_chooser_what_waits(rt: HostRuntime) -> Result<(), Fail> {
    // The goal, which is rewritten as often as there are axioms before it waits.
    expect_noted(&rt, &MAKE, " | 1:4")?;
    expect_noted(&rt, &["demo", "3"], " | 7:6")?;
    expect_noted(&rt, &["demo", "300"], " | 601:303")?;
    expect_noted(&rt, &["make", "t", "d", "--choose", "age"], "")?;
    expect_noted(&rt, &CHECK, "")?;
    Ok(())
}

/// That words with a fetch of this number failing leave this message.
fn expect_unread(
    rt: &(impl Abort + AllocGlobal),
    words: &[&str],
    call: u64,
    err: &str,
) -> Result<(), Fail> {
    let shelf = shelf_of(rt.alloc(), Some(call))?;
    let outcome = ran(rt.alloc(), words, shelf, None, None)?;
    expect(rt, outcome, Status::Read, "", err);
    Ok(())
}

#[test]
fn tells_which_file_could_not_be_read(rt: HostRuntime) -> Result<(), Fail> {
    expect_unread(&rt, &MAKE, 1, "amphion: cannot read theory\n")?;
    expect_unread(&rt, &MAKE, 2, "amphion: cannot read diagram\n")?;
    expect_unread(&rt, &CHECK, 3, "amphion: cannot read text\n")?;
    Ok(())
}

/// That `make` where put number `call` takes `count` bytes and fails holds so much of its text.
fn expect_cut(
    rt: &(impl Abort + AllocGlobal),
    call: u64,
    count: u64,
    held: usize,
) -> Result<(), Fail> {
    let shelf = shelf_of(rt.alloc(), None)?;
    let outcome = ran(rt.alloc(), &MAKE, shelf, Some((call, count)), None)?;
    assert!(rt; outcome.status == Status::Write);
    assert!(rt; held <= CONV_TEXT.len());
    assert!(rt; outcome.out.as_slice() == &CONV_TEXT.as_bytes()[..held]);
    assert!(rt; outcome.err.as_slice() == b"amphion: cannot write\n".as_slice());
    Ok(())
}

#[test]
fn stops_at_a_failed_put(rt: HostRuntime) -> Result<(), Fail> {
    // The lines have 12, 58, 62, 28, 22, 25, 24 and 10 bytes.
    for (call, before, length) in [
        (1, 0, 12),
        (2, 12, 58),
        (3, 70, 62),
        (4, 132, 28),
        (5, 160, 22),
        (6, 182, 25),
        (7, 207, 24),
        (8, 231, 10),
    ] {
        expect_cut(&rt, call, 0, before)?;
        expect_cut(&rt, call, 1, before + 1)?;
        expect_cut(&rt, call, 100, before + length)?;
    }
    expect_cut(&rt, 2, 5, 17)?;
    Ok(())
}

#[test]
fn says_nothing_where_nothing_can_be_said(rt: HostRuntime) -> Result<(), Fail> {
    let shelf = shelf_of(rt.alloc(), None)?;
    let outcome = ran(rt.alloc(), &MAKE, shelf, Some((1, 3)), Some((1, 4)))?;
    expect(&rt, outcome, Status::Write, "C (", "amph");
    let shelf = shelf_of(rt.alloc(), None)?;
    let outcome = ran(rt.alloc(), &["make", "t"], shelf, None, Some((1, 0)))?;
    expect(&rt, outcome, Status::Write, "", "");
    Ok(())
}

#[test]
fn numbers_the_statuses(rt: HostRuntime) {
    assert_eq!(rt; Status::Ok.code(), 0);
    assert_eq!(rt; Status::File.code(), 2);
    assert_eq!(rt; Status::Refused.code(), 5);
    assert_eq!(rt; Status::Long.code(), 10);
}
