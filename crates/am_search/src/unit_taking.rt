//! The units among the processed rows.
ghost use Rattle.std.specs.Prelude.{IfOk, OnOk, ◌≡◌, ◌++◌, ◌∷◌, []};
ghost use Rattle.am_search.specs.Processing.{processed_units};
ghost use Rattle.am_simplify.specs.Units.{unit_of, with_units};

use crate::choices::Choices;
use crate::rows::find;
use crate::setting::Setting;
use am_clause::Row;
use am_simplify::Rewriter;
use am_term::NoMemory;
use std::alloc::Global;

/// The units among the axiom rows.
#[tactic(auto, using(crate::proofs::Processing::processing))]
pub fn axiom_units(alloc: Global, setting: &Setting, rows: &[Row]) -> Result<Rewriter, NoMemory>
    ensures { IfOk result (λ r. let t = setting.now in r ≡ processed_units t.ctx.sig.now t.axioms rows.now []) }
{
    let mut rewriter = Rewriter::new(alloc);
    for i in 0..setting.axioms {
        match find(rows, i + 1) {
            Some(row) => put(alloc, setting, i + 1, row, &mut rewriter)?,
            None => {}
        }
    }
    Ok(rewriter)
}

/// The units with the row that is chosen next, unless it was processed before.
#[tactic(auto, using(crate::proofs::Processing::processing))]
pub fn take_in(
    alloc: Global,
    setting: &Setting,
    rows: &[Row],
    choices: &Choices,
    number: u32,
    rewriter: &mut Rewriter,
) -> Result<(), NoMemory>
    requires { let t = setting.now in rewriter.old ≡ processed_units t.ctx.sig.now t.axioms rows.now choices.now }
    ensures { OnOk result (let t = setting.now in rewriter.new ≡ processed_units t.ctx.sig.now t.axioms rows.now
        (choices.now ++ number ∷ [])) }
{
    if number <= setting.axioms {
        return Ok(());
    }
    if choices.contains(number) {
        return Ok(());
    }
    match find(rows, number) {
        Some(row) => {
            put(alloc, setting, number, row, rewriter)?;
            Ok(())
        }
        None => Ok(()),
    }
}

// The unit of a row, if it is one, at its place by number.
fn put(
    alloc: Global,
    setting: &Setting,
    number: u32,
    row: &Row,
    rewriter: &mut Rewriter,
) -> Result<(), NoMemory>
    ensures { OnOk result (rewriter.new ≡ with_units
        (unit_of setting.now.ctx.sig.now (number, row.now.clause)) rewriter.old) }
{
    rewriter.add(alloc, &setting.ctx, number, &row.clause)?;
    Ok(())
}
