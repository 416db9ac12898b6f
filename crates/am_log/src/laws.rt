ghost use Rattle.am_log.specs.Laws.{CutKeepsTheRule, RowsAreCut, OneText, EachIsLogOrFault, OneSplit, LogIsTheProofPart, OneWay};

/// The pieces of the cut, where they join to the text, keep its rule; no other pieces keep it, and
/// pieces that keep it join to the text.
pub fn law_of_cut()
    ensures { CutKeepsTheRule }
{}

/// The text of a row that may be written has pieces that keep the rule, and is the text of its lines.
pub fn law_of_rows()
    ensures { RowsAreCut }
{}

/// No two logs have one text.
pub fn law_of_one_text()
    ensures { OneText }
{}

/// A text no longer than may be is that of a log or has a first fault, and not both.
pub fn law_of_faults()
    ensures { EachIsLogOrFault }
{}

/// A text has one proof part and one unit part.
pub fn law_of_split()
    ensures { OneSplit }
{}

/// The text of a log in front of a text none of whose lines begins with `C` is the proof part.
pub fn law_of_proof_part()
    ensures { LogIsTheProofPart }
{}

/// A text is in at most one way the text of a log in front of a text none of whose lines begins with
/// `C`.
pub fn law_of_one_way()
    ensures { OneWay }
{}
