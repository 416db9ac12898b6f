ghost use Rattle.am_words.specs.Laws.{RangesHold};

/// The numbers of a command that was read are in the ranges that the grammar gives.
pub fn law_of_ranges()
    ensures { RangesHold }
{}
