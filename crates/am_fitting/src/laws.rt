ghost use Rattle.am_fitting.specs.Laws.{AnswersFit};

/// In a proof over a well-formed theory and a well-formed diagram, the answer of each row has one term
/// for each output, and the sort of each term fits that of its output.
pub fn law_of_fitting_answers()
    ensures { AnswersFit }
{}
