ghost use Rattle.std.specs.Prelude.{◌≡◌, ◌++◌, OnOk, IfOk};
ghost use Rattle.am_log.specs.Text.{log_text, rows_text};
ghost use Rattle.am_log.specs.Naming.{known_names, named_row as row_named};
ghost use Rattle.am_log.specs.Cut.{wrapped};
ghost use Rattle.am_log.specs.Spelled.{row_form as form_spelled, row_text};

use crate::forms::row_form;
use crate::naming::{Scene, named_answer, named_lists, named_literals};
use crate::wrapping::push_wrapped;
use am_clause::{Log, Row};
use am_diagram::Diagram;
use am_term::NoMemory;
use am_text::{Form, write_form};
use am_theory::Theory;
use std::alloc::Global;

/// The text of a log. `NoMemory` where no memory is left, or a row's number doesn't fit 32 bits.
#[tactic(auto, unfolding(crate::specs::Text::log_text))]
pub fn write_log(
    alloc: Global,
    theory: &Theory,
    diagram: &Diagram,
    log: &Log,
) -> Result<Vec<u8>, NoMemory>
    ensures { IfOk result (λ text. text.items ≡ log_text theory.now diagram.now log.now) }
{
    let mut out = Vec::new(alloc);
    out.extend_from_slice(b"C (proof 1)\n")?;
    let scene = Scene { theory, diagram };
    push_rows(alloc, &mut out, &scene, log.rows.as_slice())?;
    Ok(out)
}

fn push_rows(alloc: Global, out: &mut Vec<u8>, scene: &Scene, rows: &[Row]) -> Result<(), NoMemory>
    ensures { OnOk result (out.new.items ≡ out.old.items ++ rows_text
        (known_names scene.now.theory.now scene.now.diagram.now) 1 rows.now) }
{
    let mut rest = rows;
    let mut number: u32 = 1;
    while let [row, behind @ ..] = rest {
        push_row(alloc, out, scene, number, row)?;
        let Some(next) = number.checked_add(1) else {
            return Err(NoMemory);
        };
        number = next;
        rest = behind;
    }
    Ok(())
}

/// Writes the lines of the row of this number.
fn push_row(
    alloc: Global,
    out: &mut Vec<u8>,
    scene: &Scene,
    number: u32,
    row: &Row,
) -> Result<(), NoMemory>
    ensures { OnOk result (out.new.items ≡ out.old.items ++ wrapped
        (row_text (row_named (known_names scene.now.theory.now scene.now.diagram.now) number row.now))) }
{
    let form = named_form(alloc, scene, number, row)?;
    let text = write_form(alloc, &form)?;
    push_wrapped(out, text.as_slice())
}

/// The form of the row of this number.
fn named_form(alloc: Global, scene: &Scene, number: u32, row: &Row) -> Result<Form, NoMemory>
    ensures { IfOk result (λ f. f ≡ form_spelled
        (row_named (known_names scene.now.theory.now scene.now.diagram.now) number row.now)) }
{
    let with = named_lists(alloc, scene, row.with.as_slice())?;
    let literals = named_literals(alloc, scene, row.clause.literals.as_slice())?;
    let answer = named_answer(alloc, scene, &row.clause.answer)?;
    row_form(
        alloc,
        number,
        &row.rule,
        with.as_slice(),
        literals.as_slice(),
        &answer,
    )
}
