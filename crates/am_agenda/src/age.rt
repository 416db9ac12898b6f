ghost use Rattle.std.specs.Prelude.{◌≢◌};
ghost use Rattle.am_agenda.specs.Picks.{oldest_place};
ghost use Rattle.am_agenda.specs.Within.{oldest_below};

use crate::best::oldest;
use crate::chooser::Chooser;
use crate::wait_row::WaitRow;

/// Picks the row of the least number, whatever it was asked before.
#[derive(Debug, Drop)]
pub struct ByAge {}

impl ByAge {
    /// Takes no memory.
    pub fn new() -> ByAge {
        ByAge {}
    }
}

impl Chooser for ByAge {
    ghost pick_after = { λ c past list. oldest_place list };

    ghost below = { λ c past list some. oldest_below list some };

    fn choose(&mut self, rows: &[WaitRow]) -> usize {
        oldest(rows)
    }
}
