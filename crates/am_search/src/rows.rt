ghost use Rattle.std.specs.Prelude.{option_copied, ◌≡◌, IfOk, ◌+◌};
ghost use Rattle.am_search.specs.Members.{row_at, sourced};

use crate::source::Source;
use am_clause::Row;
use am_term::NoMemory;

/// The row of a number, if there is one. Takes no memory.
pub fn find(rows: &[Row], number: u32) -> Option<&Row>
    ensures { option_copied result ≡ row_at rows.now number }
{
    if number == 0 {
        return None;
    }
    rows.get(number as usize - 1)
}

/// The number of the row after so many.
pub fn number_after(rows: usize) -> Result<u32, NoMemory>
    ensures { IfOk result (λ n. n ≡ rows + 1) }
{
    if rows < 4294967295 {
        return Ok(rows as u32 + 1);
    }
    Err(NoMemory)
}

/// The row of a number as a source.
pub fn source<'a>(axioms: u32, number: u32, row: &'a Row) -> Source<'a>
    ensures { result ≡ sourced axioms number row.now }
{
    Source::new(number, number <= axioms, &row.clause)
}

/// The next number.
pub fn after(n: u32) -> Result<u32, NoMemory>
    ensures { IfOk result (λ m. m ≡ n + 1) }
{
    if n < 4294967295 {
        return Ok(n + 1);
    }
    Err(NoMemory)
}
