//! The best of a list by an order.
ghost use Rattle.std.specs.Prelude.{◌≢◌, [], ◌<◌, length, ◌≡◌};
ghost use Rattle.am_agenda.specs.Picks.{lightest_place, oldest_place};

use crate::wait_row::WaitRow;

/// The place of the row of the least weight, and of these of the least number. Takes no memory.
pub fn lightest(rows: &[WaitRow]) -> usize
    requires { rows.now ≢ [] }
    ensures within { result < length rows.now }
    ensures place { result ≡ lightest_place rows.now }
{
    let mut best = rows[0];
    let mut place: usize = 0;
    let mut at: usize = 1;
    let mut rest = &rows[1..];
    while let [row, behind @ ..] = rest {
        if row.weight < best.weight || (row.weight == best.weight && row.number < best.number) {
            best = *row;
            place = at;
        }
        at += 1;
        rest = behind;
    }
    place
}

/// The place of the row of the least number. Takes no memory.
pub fn oldest(rows: &[WaitRow]) -> usize
    requires { rows.now ≢ [] }
    ensures within { result < length rows.now }
    ensures place { result ≡ oldest_place rows.now }
{
    let mut best = rows[0];
    let mut place: usize = 0;
    let mut at: usize = 1;
    let mut rest = &rows[1..];
    while let [row, behind @ ..] = rest {
        if row.number < best.number {
            best = *row;
            place = at;
        }
        at += 1;
        rest = behind;
    }
    place
}
