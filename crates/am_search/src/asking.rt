//! Asking a chooser.
ghost use Rattle.std.specs.Prelude.{List, ◌≢◌, [], ◌<◌, length, ◌≡◌, ◌∷◌, Some};
ghost use Rattle.am_agenda.specs.declared.wait_row.WaitRow.{WaitRow};
ghost use Rattle.am_search.specs.Plain.{picked_at};

use am_agenda::{Chooser, WaitRow};

// Asks for a place.
fn ask_place(chooser: &mut Box<dyn Chooser>, rows: &[WaitRow]) -> usize
    requires { rows.now ≢ [] }
    ensures within { result < length rows.now }
    ensures picked { result ≡ pick_after chooser.old [] rows.now }
    ensures after { (past : List (List WaitRow)) (list : List WaitRow)
        → pick_after chooser.new past list ≡ pick_after chooser.old (rows.now ∷ past) list }
{
    chooser.choose(rows)
}

/// Asks for a row, once. Takes no memory.
pub fn ask(chooser: &mut Box<dyn Chooser>, rows: &[WaitRow]) -> u32
    requires { rows.now ≢ [] }
    ensures picked { picked_at rows.now (pick_after chooser.old [] rows.now) ≡ Some result }
    ensures after { (past : List (List WaitRow)) (list : List WaitRow)
        → pick_after chooser.new past list ≡ pick_after chooser.old (rows.now ∷ past) list }
{
    let place = ask_place(chooser, rows);
    rows[place].number
}
