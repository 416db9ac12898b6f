ghost use Rattle.std.specs.Prelude.{IfOk};
ghost use Rattle.am_theory.specs.Facts.{WellFormed};
ghost use Rattle.am_diagram.specs.Facts.{WellFormed as WellDrawn};
ghost use Rattle.am_product.specs.Planned.{IsPlanned};
ghost use Rattle.am_product.specs.Product.{IsProduct, Produces};

use crate::outcome::Product;
use am_check::{Verdict, check, last_answer};
use am_clause::{Log, Row};
use am_diagram::Diagram;
use am_fortran::{Unit, write_unit};
use am_log::write_log;
use am_plan::{is_answer, plan};
use am_term::NoMemory;
use am_theory::Theory;
use std::alloc::Global;

const BYTE_LIMIT: usize = 16_777_216;

/// The product of a log: its text and, behind it, that of the subroutine that its last row's answer is planned as.
/// `Long` where this has more than 16,777,216 bytes. `NoMemory` too where the log isn't a proof that ends in an answer.
pub fn product(
    alloc: Global,
    theory: &Theory,
    diagram: &Diagram,
    log: &Log,
) -> Result<Product, NoMemory>
    requires theory { WellFormed theory.now }
    requires diagram { WellDrawn theory.now diagram.now }
    ensures { IfOk result (Produces theory.now diagram.now log.now) }
{
    let text = joined(alloc, theory, diagram, log)?;
    if text.len() > BYTE_LIMIT {
        return Ok(Product::Long);
    }
    match check(alloc, theory, diagram, text.as_slice())? {
        Verdict::Accepted => Ok(Product::Text(text)),
        Verdict::Refused { .. } => Err(NoMemory),
    }
}

fn joined(alloc: Global, theory: &Theory, diagram: &Diagram, log: &Log) -> Result<Vec<u8>, NoMemory>
    requires theory { WellFormed theory.now }
    requires diagram { WellDrawn theory.now diagram.now }
    ensures { IfOk result (λ text. IsProduct theory.now diagram.now log.now text.items) }
{
    let unit = planned(alloc, theory, diagram, log.rows.as_slice())?;
    let behind = write_unit(alloc, &unit)?;
    let mut text = write_log(alloc, theory, diagram, log)?;
    text.extend_from_slice(behind.as_slice())?;
    Ok(text)
}

/// The subroutine that the answer of the last row is planned as.
fn planned(
    alloc: Global,
    theory: &Theory,
    diagram: &Diagram,
    rows: &[Row],
) -> Result<Unit, NoMemory>
    requires theory { WellFormed theory.now }
    requires diagram { WellDrawn theory.now diagram.now }
    ensures { IfOk result (IsPlanned theory.now diagram.now rows.now) }
{
    let Some(answer) = last_answer(rows) else {
        return Err(NoMemory);
    };
    if !is_answer(alloc, theory, diagram, answer)? {
        return Err(NoMemory);
    }
    plan(alloc, theory, diagram, answer)
}
