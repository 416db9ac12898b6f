ghost use Rattle.am_syntax.specs.Laws.{AtomVariablesAreBound, AtomsAreKept, AtomsAreWrittenBack, FlawlessAtomsAreSorted, FlawlessFormulasAreSorted, FlawlessTermsAreSorted, FormulaVariablesAreBound, FormulasAreKept, FormulasAreWrittenBack, TermVariablesAreBound, TermsAreKept, TermsAreWrittenBack};

/// In the scope of a signature a term without a flaw has a sort, and what it means has the same sort.
/// What an atom without a flaw means is well sorted; so is what a formula without a flaw and without a
/// quantifier means.
pub fn what_has_no_flaw_is_well_sorted()
    ensures terms { FlawlessTermsAreSorted }
    ensures atoms { FlawlessAtomsAreSorted }
    ensures formulas { FlawlessFormulasAreSorted }
{}

/// By the names of its scope, what a term, an atom or a formula means is written as it was, if a form can
/// be it, all its names stand for something, and a formula has no quantifier.
pub fn what_is_meant_is_written_back()
    ensures terms { TermsAreWrittenBack }
    ensures atoms { AtomsAreWrittenBack }
    ensures formulas { FormulasAreWrittenBack }
{}

/// In a scope that extends another, a term, an atom or a formula all of whose names stand for something
/// in the other has the same flaws and the same meaning, and a term the same sort.
pub fn in_a_larger_scope_nothing_changes()
    ensures terms { TermsAreKept }
    ensures atoms { AtomsAreKept }
    ensures formulas { FormulasAreKept }
{}

/// Each variable of what a term, an atom or a formula means is one that a name of the scope stands for.
pub fn variables_are_of_the_scope()
    ensures terms { TermVariablesAreBound }
    ensures atoms { AtomVariablesAreBound }
    ensures formulas { FormulaVariablesAreBound }
{}
