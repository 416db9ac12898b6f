ghost use Rattle.std.specs.Prelude.{◌≢◌};
ghost use Rattle.am_agenda.specs.Picks.{lightest_place};
ghost use Rattle.am_agenda.specs.Within.{lightest_below};

use crate::best::lightest;
use crate::chooser::Chooser;
use crate::wait_row::WaitRow;

/// Picks the row of the least weight, and of these the one of the least number, whatever it was asked before.
#[derive(Debug, Drop)]
pub struct ByWeight {}

impl ByWeight {
    /// Takes no memory.
    pub fn new() -> ByWeight {
        ByWeight {}
    }
}

impl Chooser for ByWeight {
    ghost pick_after = { λ c past list. lightest_place list };

    ghost below = { λ c past list some. lightest_below list some };

    fn choose(&mut self, rows: &[WaitRow]) -> usize {
        lightest(rows)
    }
}
