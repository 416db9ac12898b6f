ghost use Rattle.std.specs.Prelude.{◌≡◌};
ghost use Rattle.am_text.specs.declared.fault.ReadError.TheVariants.{Memory, Fault};

use am_term::NoMemory;
use std::alloc::AllocError;

/// What is wrong with a text. Where two stand at one place, the one named first here counts.
#[derive(Clone, Copy, Debug, PartialEq, Eq)]
pub enum TextKind {
    /// A byte that can neither begin nor continue a form there.
    BadByte,
    /// The end, with a list or a text open.
    Unclosed,
    /// A `)` with no list open.
    Unopened,
    /// A `(` that would make more lists open than the limit.
    TooDeep,
    /// A word of more than 48 bytes, a number that doesn't fit 64 bits, a text of more than 255 bytes.
    BadAtom,
    /// More bytes than the limit.
    TooLong,
    /// No memory is left.
    NoMemory,
}

/// The first fault of a text, and its place. This project's own table.
#[derive(Clone, Copy, Debug, PartialEq, Eq)]
pub struct TextFault {
    pub place: u32,
    pub kind: TextKind,
}

/// A fault of the bytes, or the end of memory.
#[derive(Clone, Copy, Debug, PartialEq, Eq)]
pub enum ReadError {
    Memory,
    Fault(TextFault),
}

impl ReadError {
    /// The fault that a text has at a place.
    pub fn at(place: u32, kind: TextKind) -> ReadError
        ensures { result ≡ Fault (record { place = place; kind = kind }) }
    {
        ReadError::Fault(TextFault { place, kind })
    }
}

impl From<NoMemory> for ReadError {
    ghost from_gives = { λ _ e. e ≡ Memory };

    fn from(_error: NoMemory) -> ReadError {
        ReadError::Memory
    }
}

impl From<AllocError> for ReadError {
    ghost from_gives = { λ _ e. e ≡ Memory };

    fn from(_error: AllocError) -> ReadError {
        ReadError::Memory
    }
}
