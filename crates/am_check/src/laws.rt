ghost use Rattle.am_check.specs.Laws.{AcceptedIsRight, ContradictionsRefute, EachHasOneOutcome, NoPrefix};

/// What is accepted is right: in each model of the theory's axioms the text's unit solves the diagram.
pub fn law_of_acceptance()
    ensures { AcceptedIsRight }
{}

/// A proof whose last row has no literals and no answer shows that in no model of the theory's axioms any inputs meet
/// the givens.
pub fn law_of_refutation()
    ensures { ContradictionsRefute }
{}

/// A text that is accepted has no first fault, and no text has two.
pub fn law_of_refusal()
    ensures { EachHasOneOutcome }
{}

/// No proper prefix of an accepted text is accepted.
pub fn law_of_prefixes()
    ensures { NoPrefix }
{}
