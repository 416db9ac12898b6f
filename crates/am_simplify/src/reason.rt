/// Why a row is dropped, in the order in which the reasons are tried. `Subsumed` names the row that subsumes it.
#[derive(Clone, Copy, Debug, PartialEq, Eq)]
pub enum Reason {
    Tautology,
    Wide,
    Heavy,
    AnswerNotComputable,
    OpenAnswer,
    Subsumed(u32),
}
