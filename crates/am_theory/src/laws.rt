ghost use Rattle.am_theory.specs.Laws.{ReadTheoriesAreWellFormed};

/// Each theory that was read is well formed: names differ where they must and stand for what was
/// declared, sorts suit their places, numbers are in range, counts are within their limits, and the
/// formulas of axioms are well sorted.
pub fn theories_that_were_read_are_well_formed()
    ensures { ReadTheoriesAreWellFormed }
{}
