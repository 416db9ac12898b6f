use am_term::Name;
use sqlite_items::Items;

/// A FORTRAN type with its length or its extents. `CharAny` is `CHARACTER*(*)`.
#[derive(Clone, Copy, Debug, PartialEq, Eq)]
pub enum FortranType {
    Double,
    Integer,
    Logical,
    Char(u32),
    CharAny,
    DoubleVec(u32),
    DoubleMat(u32, u32),
    IntegerVec(u32),
}

/// The declaration of a name.
#[derive(Debug, Drop)]
pub struct Decl {
    pub ty: FortranType,
    pub name: Name,
}

/// What stands as an argument or on the right of an assignment: a name, a whole number, or a text
/// without its apostrophes.
#[derive(Debug, Drop)]
pub enum Operand {
    Name(Name),
    Int(i64),
    Text(Name),
}

/// An executable statement: a call of a subroutine, an assignment, or an assignment of a function's
/// value.
#[derive(Debug, Drop)]
pub enum Statement {
    Call {
        routine: Name,
        args: Items<Operand>,
    },
    Assign {
        target: Name,
        from: Operand,
    },
    Apply {
        target: Name,
        function: Name,
        args: Items<Operand>,
    },
}
