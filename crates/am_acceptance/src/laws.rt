//! Laws of the texts of what a search finds, as contracts of functions that do nothing.
ghost use Rattle.am_acceptance.specs.Laws.{AnswersServe, AxiomsNestLow, LogsHaveTexts, ProductsAreAccepted};

/// In a theory of a file the terms of each clause of an axiom nest no deeper than the lists of a file.
pub fn law_of_heights()
    ensures { AxiomsNestLow }
{}

/// Over a theory of a file, where something was found or contradicts, the log has a text, if it is no longer than a
/// text may be.
pub fn law_of_texts()
    ensures { LogsHaveTexts }
{}

/// Where something was found, the answer by which the log ends is one that there is a subroutine for.
pub fn law_of_answers()
    ensures { AnswersServe }
{}

/// Over a theory of a file, the product of what was found is accepted, if it is no longer than a text may be.
pub fn law_of_products()
    ensures { ProductsAreAccepted }
{}
