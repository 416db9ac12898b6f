/// What a symbol is: an abstract function, a relation, a literal, an output of a routine, or a
/// listed FORTRAN function.
#[derive(Clone, Copy, Debug, PartialEq, Eq)]
pub enum SymKind {
    Function,
    Relation,
    Literal,
    Output,
    Value,
}
