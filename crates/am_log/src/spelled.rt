ghost use Rattle.std.specs.Prelude.{◌≡◌, ◌≤◌, ◌&&◌, IfOk, MatchOption, length};
ghost use Rattle.std.specs.Str.{bytes_eq};
ghost use Rattle.am_log.specs.Spelled.{Spells, is_named_row as named_row, row_text, SpellsNothing};
ghost use Rattle.am_log.specs.Answers.{row_named};
ghost use Rattle.am_log.specs.Text.{byte_limit};
ghost use Rattle.am_log.specs.Guess.{guess_text as text_guessed, one_form as form_guessed};

use crate::forms::row_form;
use crate::guess::guess_row;
use crate::named::NamedRow;
use crate::tests_of_names::is_named_row;
use am_term::NoMemory;
use am_text::{Form, TextKind, TextLimits, read_forms, write_form};
use std::alloc::Global;

/// The row by names that the text spells, or `None` where it spells none: the row that its form may
/// spell is written, and the text compared.
#[tactic(auto, unfolding(crate::specs::Answers::row_named))]
pub fn row_of(alloc: Global, text: &[u8]) -> Result<Option<NamedRow>, NoMemory>
    // The row is read.
    ensures same { IfOk result (λ found. found ≡ row_named text.now) }
    // A row that was read is spelled so, and where none was read the text is spelled as none.
    ensures exact { length text.now ≤ byte_limit
        → IfOk result (λ found. MatchOption found (SpellsNothing text.now) (λ row. Spells text.now row)) }
{
    let Some(row) = guess_text(alloc, text)? else {
        return Ok(None);
    };
    if is_spelled(alloc, &row, text)? {
        Ok(Some(row))
    } else {
        Ok(None)
    }
}

#[tactic(auto, unfolding(crate::specs::Guess::guess_text))]
fn guess_text(alloc: Global, text: &[u8]) -> Result<Option<NamedRow>, NoMemory>
    ensures { IfOk result (λ row. row ≡ text_guessed text.now) }
{
    let limits = TextLimits {
        bytes: 16777216,
        depth: 512,
    };
    match read_forms(alloc, text, limits) {
        Ok(forms) => one_form(alloc, forms.as_slice()),
        Err(fault) => match fault.kind {
            TextKind::NoMemory => Err(NoMemory),
            TextKind::BadByte => Ok(None),
            TextKind::Unclosed => Ok(None),
            TextKind::Unopened => Ok(None),
            TextKind::TooDeep => Ok(None),
            TextKind::BadAtom => Ok(None),
            TextKind::TooLong => Ok(None),
        },
    }
}

fn one_form(alloc: Global, forms: &[Form]) -> Result<Option<NamedRow>, NoMemory>
    ensures { IfOk result (λ row. row ≡ form_guessed forms.now) }
{
    match forms {
        [form] => {
            let row = guess_row(alloc, form)?;
            Ok(Some(row))
        }
        [] => Ok(None),
        [_, _, ..] => Ok(None),
    }
}

fn is_spelled(alloc: Global, row: &NamedRow, text: &[u8]) -> Result<bool, NoMemory>
    ensures { IfOk result (λ spelled. spelled ≡ (named_row row.now && bytes_eq (row_text row.now) text.now)) }
{
    if !is_named_row(row) {
        return Ok(false);
    }
    let form = row_form(
        alloc,
        row.number,
        &row.rule,
        row.with.as_slice(),
        row.literals.as_slice(),
        &row.answer,
    )?;
    let written = write_form(alloc, &form)?;
    Ok(written.as_slice() == text)
}
