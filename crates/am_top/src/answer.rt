ghost use Rattle.std.specs.Prelude.{◌≡◌};
ghost use Rattle.am_top.specs.declared.answer.Answer.TheVariants.{NoMemory as OutOfMemory};

use am_term::NoMemory;

/// One of the files that the words name.
#[derive(Clone, Copy, Debug, PartialEq, Eq)]
pub enum File {
    Theory,
    Diagram,
    Text,
}

/// Why files have no text to print, beside that they can't be read. Each has its status.
#[derive(Clone, Copy, Debug, PartialEq, Eq)]
pub enum Refusal {
    /// A file is too long or has a fault.
    File,
    /// A text isn't accepted.
    Text,
    /// A search used its budget up.
    Spent,
    /// A search has nothing left to try.
    Exhausted,
    /// Givens and axioms contradict each other.
    Contradiction,
    /// The text to print is too long.
    Long,
}

/// What words and files come to, before anything is written: the text to print, or why there is none.
#[derive(Debug, Drop)]
pub enum Answer {
    /// The text to print.
    Text(Vec<u8>),
    /// The words have no reading.
    Usage,
    /// The files are refused, and this is the message that says why.
    Refused(Refusal, Vec<u8>),
    /// The library had a fault at the file.
    Unread(File),
    /// No memory was left.
    NoMemory,
}

impl From<NoMemory> for Answer {
    ghost from_gives = { λ _ answer. answer ≡ OutOfMemory };

    fn from(_error: NoMemory) -> Answer {
        Answer::NoMemory
    }
}
