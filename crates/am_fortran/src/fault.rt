ghost use Rattle.std.specs.Prelude.{◌≡◌};
ghost use Rattle.am_fortran.specs.declared.fault.ReadError.TheVariants.{Memory};

use am_term::NoMemory;
use std::alloc::AllocError;

/// Why a text is no unit: it is cut, a group of lines is no statement, or a statement can't stand
/// where it does. `NoMemory` where no memory is left.
#[derive(Clone, Copy, Debug, PartialEq, Eq)]
pub enum UnitKind {
    Cut,
    BadStatement,
    Order,
    NoMemory,
}

/// The first fault of a text: the first line of its group, from 1, and its kind.
#[derive(Clone, Copy, Debug, PartialEq, Eq)]
pub struct UnitFault {
    pub line: u32,
    pub kind: UnitKind,
}

/// A fault, or the end of memory.
#[derive(Clone, Copy, Debug)]
pub enum ReadError {
    Memory,
    Fault(UnitFault),
}

impl From<NoMemory> for ReadError {
    ghost from_gives = { λ _ e. e ≡ Memory };

    fn from(_error: NoMemory) -> ReadError {
        ReadError::Memory
    }
}

impl From<AllocError> for ReadError {
    ghost from_gives = { λ _ e. e ≡ Memory };

    fn from(_error: AllocError) -> ReadError {
        ReadError::Memory
    }
}
