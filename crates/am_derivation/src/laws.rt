//! Laws of what a search infers, as contracts of functions that do nothing.
ghost use Rattle.am_derivation.specs.Laws.{EntriesAreCounted, HistoriesAreProofs, LogsAreProofs, LogsEndSo};
ghost use Rattle.am_derivation.specs.Sizes.{LogsAreSmall, LogsNestLow, NestingIsFew};

/// The starting rows and all rows that a search infers, in order, are a proof.
pub fn law_of_derivations()
    ensures { HistoriesAreProofs }
{}

/// Where something was found or contradicts, the log is a proof.
pub fn law_of_logs()
    ensures { LogsAreProofs }
{}

/// Where something was found the log's last row has no literals, no variables and an answer that a program can compute;
/// where axioms and givens contradict each other it has neither literals nor an answer.
pub fn law_of_ends()
    ensures { LogsEndSo }
{}

/// There is one entry for each inference.
pub fn law_of_counts()
    ensures { EntriesAreCounted }
{}

/// No term nests deeper than it has nodes. Each row of a log is an axiom's, or is small for the limit of weight, and so
/// its terms nest no deeper than that.
pub fn law_of_sizes()
    ensures few { NestingIsFew }
    ensures small { LogsAreSmall }
    ensures low { LogsNestLow }
{}
