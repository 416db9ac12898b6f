/// What is wrong with the text of a log. Of two at one group the one named first here counts.
#[derive(Clone, Copy, Debug, PartialEq, Eq)]
pub enum LogKind {
    /// Line 1 isn't `C (proof 1)`.
    NotProof,
    /// The lines are those of no text.
    BadWrap,
    /// The text is spelled as no row, whatever the names.
    BadRow,
    /// The number isn't the next.
    BadNumber,
    /// A name is no sort, no symbol and no input.
    UnknownName,
    /// A term or an atom isn't well sorted.
    BadSort,
    /// No memory is left.
    NoMemory,
}

/// The first line of the first bad group, and the first kind that holds there.
#[derive(Clone, Copy, Debug, PartialEq, Eq)]
pub struct LogFault {
    pub line: u32,
    pub kind: LogKind,
}
