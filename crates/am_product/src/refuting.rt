ghost use Rattle.std.specs.Prelude.{IfOk};
ghost use Rattle.am_theory.specs.Facts.{WellFormed};
ghost use Rattle.am_diagram.specs.Facts.{WellFormed as WellDrawn};
ghost use Rattle.am_product.specs.Product.{AreRefuted};

use am_check::{ends_empty, is_proof, law_of_refutation};
use am_clause::Log;
use am_diagram::Diagram;
use am_term::NoMemory;
use am_theory::Theory;
use std::alloc::Global;

/// That no inputs meet the givens, shown by a log whose rows are a proof that ends in a row without literals and
/// without an answer. `NoMemory` too where they aren't.
pub fn refute(alloc: Global, theory: &Theory, diagram: &Diagram, log: &Log) -> Result<(), NoMemory>
    requires theory { WellFormed theory.now }
    requires diagram { WellDrawn theory.now diagram.now }
    ensures { IfOk result (λ _. AreRefuted theory.now diagram.now) }
{
    law_of_refutation();
    let rows = log.rows.as_slice();
    if !ends_empty(rows) {
        return Err(NoMemory);
    }
    if !is_proof(alloc, theory, diagram, rows)? {
        return Err(NoMemory);
    }
    Ok(())
}
