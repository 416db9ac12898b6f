ghost use Rattle.std.specs.Prelude.{◌≡◌};
ghost use Rattle.am_diagram.specs.declared.fault.ReadError.TheVariants.{Memory, Fault};

use am_term::NoMemory;
use am_text::TextKind;
use std::alloc::AllocError;

/// What is wrong with a diagram file, in the order in which the kinds are tested. This project's own
/// table.
#[derive(Clone, Copy, Debug, PartialEq, Eq)]
pub enum DiagramKind {
    /// The text isn't made of forms; the kind of its fault, which is never `NoMemory`.
    Text(TextKind),
    /// There is no first form, the first form isn't `(diagram FNAME)`, or a later one has no shape of
    /// a declaration.
    BadHead,
    /// A sort, or the head of a list or a relation's name alone, isn't declared by the theory.
    UnknownName,
    /// An input, object or output has the name of an earlier one, of the diagram, or of a symbol.
    Twice,
    /// A term's sort isn't that of its place, or a relation stands as a term, or a function as an atom.
    BadSort,
    /// A symbol has another number of arguments than declared.
    BadArity,
    /// An input or output has an abstract sort.
    NotConcrete,
    /// A FORTRAN name isn't one.
    BadFortranName,
    /// A FORTRAN name is one of a unit's own locals, or one of the theory's.
    ReservedName,
    /// A word alone in a term is nothing that may stand there.
    Unbound,
    /// A count is above its limit.
    Limit,
    /// The file ends without an output.
    NoOutput,
    /// The file ends without a requirement.
    NoRequire,
    /// No memory is left.
    NoMemory,
}

/// The first fault of a diagram file, and the offset of the declaration that has it: of the fault of
/// the text, if it is one; the file's length, if something is missing.
#[derive(Clone, Copy, Debug, PartialEq, Eq)]
pub struct DiagramFault {
    pub place: u32,
    pub kind: DiagramKind,
}

/// A fault of the file, or the end of memory.
#[derive(Clone, Copy, Debug, PartialEq, Eq)]
pub enum ReadError {
    Memory,
    Fault(DiagramFault),
}

impl ReadError {
    /// The fault that a file has at a place.
    pub fn at(place: u32, kind: DiagramKind) -> ReadError
        ensures { result ≡ Fault (record { place = place; kind = kind }) }
    {
        ReadError::Fault(DiagramFault { place, kind })
    }
}

impl From<NoMemory> for ReadError {
    ghost from_gives = { λ _ e. e ≡ Memory };

    fn from(_error: NoMemory) -> ReadError {
        ReadError::Memory
    }
}

impl From<AllocError> for ReadError {
    ghost from_gives = { λ _ e. e ≡ Memory };

    fn from(_error: AllocError) -> ReadError {
        ReadError::Memory
    }
}
