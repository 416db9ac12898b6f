ghost use Rattle.am_lineage.specs.Laws.{AncestorsAreSteps, AncestorsEndWithClause, AncestorsAreRows, AncestorsAreOne, StepsAreOrdered};

/// The ancestors of a row of a proof are a proof, whose last row has the clause of that row. Each of them is a row of
/// the whole proof, with its clause and its terms, and with new numbers for its parents. They are one list. In a
/// proof each parent of a row is an earlier row.
pub fn law_of_ancestry()
    ensures proof { AncestorsAreSteps }
    ensures end { AncestorsEndWithClause }
    ensures members { AncestorsAreRows }
    ensures one { AncestorsAreOne }
    ensures ordered { StepsAreOrdered }
{}
