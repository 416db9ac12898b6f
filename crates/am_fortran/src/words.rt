ghost use Rattle.std.specs.Prelude.{◌≡◌, OnOk, IfOk};
ghost use Rattle.std.specs.String.{string_bytes};
ghost use Rattle.am_fortran.specs.Words.{Scan, in_quotes, in_words, word_ended, scan_step, scan_start, words as words_of, is_unit_word_byte};

use am_term::{Name, NoMemory};
use sqlite_items::Items;
use std::alloc::Global;
use std::marker::Model;

/// The words so far, the word that is being read, and whether it is a text that goes on.
#[derive(Drop)]
struct Scanner {
    done: Items<Name>,
    word: String,
    quoted: bool,
}

impl Model for Scanner {
    ghost Value = { Scan };

    ghost view = { λ s. record { done = s.done; word = string_bytes s.word; quoted = s.quoted } };
}

impl Scanner {
    fn new(alloc: Global) -> Scanner
        ensures { result ≡ scan_start }
    {
        Scanner {
            done: Items::new(alloc),
            word: String::new(alloc),
            quoted: false,
        }
    }

    #[tactic(auto, unfolding(crate::specs::Words::scan_step))]
    fn step(&mut self, alloc: Global, byte: u8) -> Result<(), NoMemory>
        ensures { OnOk result (self.new ≡ scan_step self.old byte) }
    {
        if self.quoted {
            self.in_text(byte)
        } else {
            self.in_words(alloc, byte)
        }
    }

    #[tactic(auto, unfolding(crate::specs::Words::in_quotes))]
    fn in_text(&mut self, byte: u8) -> Result<(), NoMemory>
        ensures { OnOk result (self.new ≡ in_quotes self.old byte) }
    {
        if byte == b'\'' {
            self.quoted = false;
        } else if 32 <= byte && byte <= 126 {
            self.word.push(byte as char)?;
            self.quoted = true;
        }
        Ok(())
    }

    #[tactic(auto, unfolding(crate::specs::Words::in_words))]
    fn in_words(&mut self, alloc: Global, byte: u8) -> Result<(), NoMemory>
        ensures { OnOk result (self.new ≡ in_words self.old byte) }
    {
        if word_byte(byte) {
            self.word.push(byte as char)?;
            self.quoted = false;
        } else if byte == b'\'' {
            self.word.push('\'')?;
            self.quoted = true;
        } else {
            self.end_word(alloc)?;
            if byte == b'(' {
                self.done.push(Name::new(alloc, "(")?)?;
            }
        }
        Ok(())
    }

    fn end_word(&mut self, alloc: Global) -> Result<(), NoMemory>
        ensures { OnOk result (self.new ≡ word_ended self.old) }
    {
        if !self.word.is_empty() {
            self.done.push(Name::new(alloc, self.word.as_str())?)?;
            self.word.clear();
        }
        self.quoted = false;
        Ok(())
    }
}

/// The words of a group: what stands between blanks, commas, parentheses and ends of lines. A text
/// between apostrophes is one word, and an opening parenthesis is a word of its own.
#[tactic(auto, unfolding(crate::specs::Words::words))]
pub fn words(alloc: Global, group: &[u8]) -> Result<Items<Name>, NoMemory>
    ensures { IfOk result (λ words. words ≡ words_of group.now) }
{
    let mut scanner = Scanner::new(alloc);
    for byte in group {
        scanner.step(alloc, *byte)?;
    }
    Ok(scanner.done)
}

fn word_byte(byte: u8) -> bool
    ensures { result ≡ is_unit_word_byte byte }
{
    (b'A' <= byte && byte <= b'Z') || (b'0' <= byte && byte <= b'9') || byte == b'-' || byte == b'='
}
