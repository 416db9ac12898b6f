ghost use Rattle.am_exec.specs.Laws.{KeepsRules, RunsByTerms, IsRightByTerms};

/// Where a unit's run by terms has no fault, the unit keeps the unit rules.
pub fn law_of_rules()
    ensures { KeepsRules }
{}

/// Where a unit's run by terms has no fault, the unit runs in every interpretation, and each output holds
/// the value of its term.
pub fn law_of_runs()
    ensures { RunsByTerms }
{}

/// A unit is right where the values of its outputs' terms are what the diagram asks for.
pub fn law_of_right()
    ensures { IsRightByTerms }
{}
