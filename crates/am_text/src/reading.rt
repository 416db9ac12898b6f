ghost use Rattle.std.specs.Prelude.{◌≡◌, ◌<◌, ◌^◌, List, Ok, IfOk, length};
ghost use Rattle.am_text.specs.Answers.{Gives, IsAnswer};
ghost use Rattle.am_text.specs.declared.form.Form.{Form};
ghost use Rattle.am_text.specs.Grammar.{ReadsWithin};
ghost use Rattle.am_text.specs.Scan.{lists_held, state, list_opened, closed, between, ended_word, in_word, in_text, step, run, finished, ended, start, read};

use crate::atom::atom;
use crate::bytes::{is_blank, is_text_byte, is_word_byte};
use crate::fault::{ReadError, TextFault, TextKind};
use crate::form::{Form, FormNode};
use crate::limits::TextLimits;
use crate::scan::{Lists, Mode, Open, Scan};
use am_term::Name;
use sqlite_items::Items;
use std::alloc::Global;

/// How deep lists may be, and where memory comes from.
#[derive(Drop)]
struct Scanner {
    alloc: Global,
    depth: u32,
}

/// The scan after a `)`.
#[tactic(auto, unfolding(crate::specs::Scan::closed), using(crate::proofs::Steps::scan_laws))]
fn close(lists: Lists, place: u32) -> Result<Scan, ReadError>
    ensures { Gives state result (closed place (lists_held lists)) }
{
    let Lists { mut outer, forms } = lists;
    let Some(open) = outer.pop() else {
        return Err(ReadError::at(place, TextKind::Unopened));
    };
    let around = Lists {
        outer,
        forms: open.before,
    };
    let lists = around.with_form(open.place, FormNode::List(forms))?;
    Ok(Scan::new(Mode::Between, lists))
}

/// The lists after the end of a word.
#[tactic(auto, unfolding(crate::specs::Scan::ended_word), using(crate::proofs::Steps::scan_laws))]
fn end_word(lists: Lists, start: u32, word: Name) -> Result<Lists, ReadError>
    ensures { Gives lists_held result (ended_word start word (lists_held lists)) }
{
    match atom(word) {
        Some(node) => lists.with_form(start, node),
        None => Err(ReadError::at(start, TextKind::BadAtom)),
    }
}

/// The scan after a byte inside a text.
#[tactic(auto, unfolding(crate::specs::Scan::in_text), using(crate::proofs::Steps::scan_laws))]
fn in_text(lists: Lists, start: u32, text: Name, place: u32, byte: u8) -> Result<Scan, ReadError>
    ensures { Gives state result (in_text start text place byte (lists_held lists)) }
{
    if byte == b'"' {
        let lists = lists.with_form(start, FormNode::Text(text))?;
        return Ok(Scan::new(Mode::Between, lists));
    }
    if !is_text_byte(byte) {
        return Err(ReadError::at(place, TextKind::BadByte));
    }
    if text.as_str().len() == 255 {
        return Err(ReadError::at(start, TextKind::BadAtom));
    }
    let mut bytes = text;
    bytes.push(byte)?;
    let mode = Mode::Text {
        place: start,
        bytes,
    };
    Ok(Scan::new(mode, lists))
}

impl Scanner {
    /// The scan after a `(`.
    #[tactic(auto, unfolding(crate::specs::Scan::list_opened), using(crate::proofs::Steps::scan_laws))]
    fn open(&self, lists: Lists, place: u32) -> Result<Scan, ReadError>
        ensures { Gives state result (list_opened self.now.depth place (lists_held lists)) }
    {
        let Lists { mut outer, forms } = lists;
        if outer.len() >= self.depth as usize {
            return Err(ReadError::at(place, TextKind::TooDeep));
        }
        outer.push(Open {
            place,
            before: forms,
        })?;
        let forms = Items::new(self.alloc);
        Ok(Scan::new(Mode::Between, Lists { outer, forms }))
    }

    /// The scan after a byte between forms.
    #[tactic(auto, unfolding(crate::specs::Scan::between), using(crate::proofs::Steps::scan_laws))]
    fn between(&self, lists: Lists, place: u32, byte: u8) -> Result<Scan, ReadError>
        ensures { Gives state result (between self.now.depth place byte (lists_held lists)) }
    {
        if is_blank(byte) {
            return Ok(Scan::new(Mode::Between, lists));
        }
        if byte == b';' {
            return Ok(Scan::new(Mode::Comment, lists));
        }
        if byte == b'(' {
            return self.open(lists, place);
        }
        if byte == b')' {
            return close(lists, place);
        }
        if byte == b'"' {
            let bytes = Name::empty(self.alloc);
            return Ok(Scan::new(Mode::Text { place, bytes }, lists));
        }
        if is_word_byte(byte) {
            let mut bytes = Name::empty(self.alloc);
            bytes.push(byte)?;
            return Ok(Scan::new(Mode::Word { place, bytes }, lists));
        }
        Err(ReadError::at(place, TextKind::BadByte))
    }

    /// The scan after a byte behind a word's byte.
    #[tactic(auto, unfolding(crate::specs::Scan::in_word), using(crate::proofs::Steps::scan_laws))]
    fn in_word(
        &self,
        lists: Lists,
        start: u32,
        word: Name,
        place: u32,
        byte: u8,
    ) -> Result<Scan, ReadError>
        ensures { Gives state result (in_word self.now.depth start word place byte (lists_held lists)) }
    {
        if !is_word_byte(byte) {
            let lists = end_word(lists, start, word)?;
            return self.between(lists, place, byte);
        }
        if word.as_str().len() == 48 {
            return Err(ReadError::at(start, TextKind::BadAtom));
        }
        let mut bytes = word;
        bytes.push(byte)?;
        let mode = Mode::Word {
            place: start,
            bytes,
        };
        Ok(Scan::new(mode, lists))
    }

    /// The scan after the byte at the place.
    #[tactic(auto, unfolding(crate::specs::Scan::step), using(crate::proofs::Steps::scan_laws))]
    fn step(&self, scan: Scan, place: u32, byte: u8) -> Result<Scan, ReadError>
        ensures { Gives state result (step self.now.depth place byte (state scan)) }
    {
        let Scan { mode, lists } = scan;
        match mode {
            Mode::Between => self.between(lists, place, byte),
            Mode::Word {
                place: start,
                bytes,
            } => self.in_word(lists, start, bytes, place, byte),
            Mode::Text {
                place: start,
                bytes,
            } => in_text(lists, start, bytes, place, byte),
            Mode::Comment if byte == b'\n' => Ok(Scan::new(Mode::Between, lists)),
            Mode::Comment => Ok(Scan::new(Mode::Comment, lists)),
        }
    }

    /// The scan after all bytes.
    #[tactic(auto, using(crate::proofs::Steps::run_laws))]
    fn run(&self, bytes: &[u8]) -> Result<Scan, ReadError>
        requires { length bytes.now < 2 ^ 32 }
        ensures { Gives state result (run self.now.depth 0 bytes.now start) }
    {
        let lists = Lists {
            outer: Items::new(self.alloc),
            forms: Items::new(self.alloc),
        };
        let mut scan = Scan::new(Mode::Between, lists);
        for i in 0..bytes.len() {
            scan = self.step(scan, i as u32, bytes[i])?;
        }
        Ok(scan)
    }
}

/// The forms, where the bytes end at the place, between forms.
#[tactic(auto, using(crate::proofs::Steps::scan_laws))]
fn end(lists: Lists, place: u32) -> Result<Items<Form>, ReadError>
    ensures { Gives (λ forms. forms) result (ended place (lists_held lists)) }
{
    if !lists.outer.is_empty() {
        return Err(ReadError::at(place, TextKind::Unclosed));
    }
    Ok(lists.forms)
}

/// The forms, where the bytes end at the place.
#[tactic(auto, unfolding(crate::specs::Scan::finished), using(crate::proofs::Steps::scan_laws))]
fn finish(scan: Scan, place: u32) -> Result<Items<Form>, ReadError>
    ensures { Gives (λ forms. forms) result (finished place (state scan)) }
{
    let Scan { mode, lists } = scan;
    match mode {
        Mode::Between => end(lists, place),
        Mode::Word {
            place: start,
            bytes,
        } => end(end_word(lists, start, bytes)?, place),
        Mode::Text { .. } => Err(ReadError::at(place, TextKind::Unclosed)),
        Mode::Comment => end(lists, place),
    }
}

#[tactic(auto, unfolding(crate::specs::Scan::read), using(crate::proofs::Steps::scan_laws))]
fn forms(alloc: Global, bytes: &[u8], limits: TextLimits) -> Result<Items<Form>, ReadError>
    ensures { Gives (λ forms. forms) result (read limits.bytes limits.depth bytes.now) }
{
    if bytes.len() > limits.bytes as usize {
        return Err(ReadError::at(limits.bytes, TextKind::TooLong));
    }
    let scanner = Scanner {
        alloc,
        depth: limits.depth,
    };
    let scan = scanner.run(bytes)?;
    finish(scan, bytes.len() as u32)
}

/// `read_forms`, by the scan alone.
fn answer(alloc: Global, bytes: &[u8], limits: TextLimits) -> Result<Items<Form>, TextFault>
    ensures { IsAnswer result (read limits.bytes limits.depth bytes.now) }
{
    match forms(alloc, bytes, limits) {
        Ok(forms) => Ok(forms),
        Err(ReadError::Memory) => Err(TextFault {
            place: 0,
            kind: TextKind::NoMemory,
        }),
        Err(ReadError::Fault(fault)) => Err(fault),
    }
}

/// The forms that the bytes are, or their first fault: each form with the offset of its first byte,
/// each fault with the offset where it is met. `NoMemory` may come for any bytes. The format is this
/// project's own.
pub fn read_forms(alloc: Global, bytes: &[u8], limits: TextLimits) -> Result<Items<Form>, TextFault>
    // The forms or the first fault, by the scan.
    ensures exact { IsAnswer result (read limits.bytes limits.depth bytes.now) }
    // The bytes are these forms by the grammar, within the limits.
    ensures found { IfOk result (ReadsWithin limits.bytes limits.depth bytes.now) }
    // Whatever forms the bytes are by the grammar, within the limits, are the answer.
    ensures only { (forms : List Form) → ReadsWithin limits.bytes limits.depth bytes.now forms
        → IsAnswer result (Ok forms) }
{
    answer(alloc, bytes, limits)
}
