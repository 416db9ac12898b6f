ghost use Rattle.am_plan.specs.Laws.{PlanGivesAnswer, EachCallOnce, NothingNeedless};

/// Run by terms, the subroutine of an answer has no fault, and its outputs hold the answer.
pub fn law_of_answer()
    ensures { PlanGivesAnswer }
{}

/// Each different call that the terms of an answer ask for is made once, by one statement.
pub fn law_of_calls()
    ensures { EachCallOnce }
{}

/// Each call makes a term of the answer or an argument of a later call.
pub fn law_of_need()
    ensures { NothingNeedless }
{}
