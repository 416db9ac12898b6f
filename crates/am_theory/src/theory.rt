use am_term::{Formula, Name, Signature, SortId, SymId};
use sqlite_items::Items;

/// How a sort is kept in FORTRAN: a scalar, a text of a length, or an array with its extents.
#[derive(Clone, Copy, Debug, PartialEq, Eq)]
pub enum Rep {
    Double,
    Integer,
    Logical,
    Char(u32),
    DoubleVec(u32),
    DoubleMat(u32, u32),
    IntegerVec(u32),
}

/// The value of a literal: a whole number or a text.
#[derive(Debug, Drop)]
pub enum LitValue {
    Int(i64),
    Text(Name),
}

/// A subroutine, called with its inputs and then its outputs. Each output is a symbol whose arguments
/// are the inputs.
#[derive(Debug, Drop)]
pub struct Routine {
    pub name: Name,
    pub inputs: Items<SortId>,
    pub outputs: Items<SymId>,
}

/// A FORTRAN function and the symbol that it computes.
#[derive(Debug, Drop)]
pub struct FortranFunction {
    pub name: Name,
    pub symbol: SymId,
}

/// A constant symbol and its value.
#[derive(Debug, Drop)]
pub struct LiteralDecl {
    pub symbol: SymId,
    pub value: LitValue,
}

/// A formula that holds for all values of its variables.
#[derive(Drop)]
pub struct Axiom {
    pub vars: Items<(Name, SortId)>,
    pub formula: Formula,
}

/// A theory, and the version of its file's format. `reps` and `copies` have a member for each sort: its representation,
/// if it is concrete, and its copy routine, if it has one; a sort under another has those of the other. The other
/// lists are in order of declaration.
#[derive(Drop)]
pub struct Theory {
    pub version: u32,
    pub sig: Signature,
    pub reps: Items<Option<Rep>>,
    pub copies: Items<Option<Name>>,
    pub routines: Items<Routine>,
    pub functions: Items<FortranFunction>,
    pub literals: Items<LiteralDecl>,
    pub axioms: Items<Axiom>,
}
