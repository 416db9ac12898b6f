ghost use Rattle.std.specs.Prelude.{◌≡◌, ◌+◌, ◌<◌, length};
ghost use Rattle.am_agenda.specs.Picks.{mixed_place};
ghost use Rattle.am_agenda.specs.Within.{mixed_below};

use crate::best::{lightest, oldest};
use crate::chooser::Chooser;
use crate::wait_row::WaitRow;

/// Picks as `ByAge` at each fifth call of this object, and as `ByWeight` at the others. It keeps how many calls there
/// were, less whole fives.
#[derive(Debug, Drop)]
pub struct Mixed {
    pub calls: u8,
    ghost small: { calls < 5 },
}

impl Mixed {
    /// One that wasn't called yet. Takes no memory.
    pub fn new() -> Mixed
        ensures calls { result.calls ≡ 0 }
    {
        Mixed { calls: 0 }
    }
}

impl Chooser for Mixed {
    ghost pick_after = { λ m past list. mixed_place (m.calls + length past + 1) list };

    ghost below = { λ m past list some. mixed_below (m.calls + length past + 1) list some };

    fn choose(&mut self, rows: &[WaitRow]) -> usize {
        self.calls = (self.calls + 1) % 5;
        if self.calls == 0 {
            oldest(rows)
        } else {
            lightest(rows)
        }
    }
}
