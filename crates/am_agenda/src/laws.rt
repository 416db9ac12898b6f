ghost use Rattle.am_agenda.specs.Laws.{PicksAreBest};

/// The row that is picked by weight is the first of the lightest, and that by age the oldest.
pub fn law_of_picks()
    ensures { PicksAreBest }
{}
