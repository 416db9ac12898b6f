ghost use Rattle.std.specs.Prelude.{◌≢◌};
ghost use Rattle.am_agenda.specs.Picks.{lightest_place};
ghost use Rattle.am_agenda.specs.Within.{lightest_below};
ghost use Rattle.search_cases.specs.Last.{last_below, last_place};

use am_agenda::{ByWeight, Chooser, WaitRow};
use std::cell::RefCell;
use std::rc::Rc;

/// Picks the row at the last place.
#[derive(Drop)]
pub struct Last {}

impl Chooser for Last {
    ghost pick_after = { λ c past list. last_place list };

    ghost below = { λ c past list some. last_below list some };

    fn choose(&mut self, rows: &[WaitRow]) -> usize {
        rows.len() - 1
    }
}

/// Picks as `ByWeight`, and notes the number and the weight of each row that it was shown, with a bar before each list.
#[derive(Drop)]
pub struct Noting {
    pub notes: Rc<RefCell<String>>,
}

impl Chooser for Noting {
    ghost pick_after = { λ c past list. lightest_place list };

    ghost below = { λ c past list some. lightest_below list some };

    fn choose(&mut self, rows: &[WaitRow]) -> usize {
        if let Ok(mut notes) = self.notes.try_borrow_mut() {
            note(&mut notes, rows);
        }
        ByWeight::new().choose(rows)
    }
}

fn note(notes: &mut String, rows: &[WaitRow]) {
    let mut is_noted = notes.push_str(" |").is_ok();
    for row in rows {
        is_noted = is_noted && write!(notes, " {}:{}", row.number, row.weight).is_ok();
    }
}
