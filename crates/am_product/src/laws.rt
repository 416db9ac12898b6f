ghost use Rattle.am_product.specs.Laws.{OneProduct};

/// Two texts that are products of one log are equal.
pub fn law_of_one_product()
    ensures { OneProduct }
{}
