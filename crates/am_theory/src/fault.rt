ghost use Rattle.std.specs.Prelude.{◌≡◌};
ghost use Rattle.am_theory.specs.declared.fault.ReadError.TheVariants.{Memory, Fault};

use am_term::NoMemory;
use am_text::TextKind;
use std::alloc::AllocError;

/// What is wrong with a theory file, in the order in which the kinds are tested. This project's own
/// table.
#[derive(Clone, Copy, Debug, PartialEq, Eq)]
pub enum TheoryKind {
    /// The text isn't made of forms; the kind of its fault, which is never `NoMemory`.
    Text(TextKind),
    /// There is no first form, the first form isn't `(theory n)`, a later one has no shape of a
    /// declaration, or a subsort stands in a file of version 1.
    BadHead,
    /// The version is neither 1 nor 2.
    Version,
    /// A sort, or the head of a list or a name alone in a formula's place, isn't declared.
    UnknownName,
    /// A name is declared already, or stands twice; or a literal has the value of an earlier one and a sort akin to
    /// its.
    Twice,
    /// A term's sort doesn't fit its place, or a relation stands as a term, or a function as an atom.
    BadSort,
    /// A symbol has another number of arguments than declared.
    BadArity,
    /// A representation is out of range, or doesn't suit what it is for.
    BadRep,
    /// An array sort names no copy routine.
    NoCopy,
    /// A FORTRAN name isn't one, or is one of a unit's own locals.
    BadFortranName,
    /// A FORTRAN name is used for two things.
    NameClash,
    /// A name alone in a term's place is neither a variable nor a symbol.
    Unbound,
    /// A quantifier stands inside a formula.
    Quantifier,
    /// A count is above its limit.
    Limit,
    /// No memory is left.
    NoMemory,
}

/// The first fault of a theory file, and the offset of the declaration that has it: of the fault of the
/// text, if it is one; the file's length, if there is no first form.
#[derive(Clone, Copy, Debug, PartialEq, Eq)]
pub struct TheoryFault {
    pub place: u32,
    pub kind: TheoryKind,
}

/// A fault of the file, or the end of memory.
#[derive(Clone, Copy, Debug, PartialEq, Eq)]
pub enum ReadError {
    Memory,
    Fault(TheoryFault),
}

impl ReadError {
    /// The fault that a file has at a place.
    pub fn at(place: u32, kind: TheoryKind) -> ReadError
        ensures { result ≡ Fault (record { place = place; kind = kind }) }
    {
        ReadError::Fault(TheoryFault { place, kind })
    }
}

impl From<NoMemory> for ReadError {
    ghost from_gives = { λ _ e. e ≡ Memory };

    fn from(_error: NoMemory) -> ReadError {
        ReadError::Memory
    }
}

impl From<AllocError> for ReadError {
    ghost from_gives = { λ _ e. e ≡ Memory };

    fn from(_error: AllocError) -> ReadError {
        ReadError::Memory
    }
}
