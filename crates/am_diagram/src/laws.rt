ghost use Rattle.am_diagram.specs.Laws.{ReadDiagramsAreWellFormed};

/// Each diagram that was read with a well-formed theory is well formed: names differ where they must,
/// sorts are the theory's, counts are within their limits, and the literals are well sorted, with
/// variables that are those of the objects and outputs.
pub fn diagrams_that_were_read_are_well_formed()
    ensures { ReadDiagramsAreWellFormed }
{}
