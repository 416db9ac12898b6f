ghost use Rattle.std.specs.Prelude.{List, ℕ, ◌≢◌, [], ◌<◌, length, ◌≡◌, ◌∷◌};
ghost use Rattle.am_agenda.specs.declared.wait_row.WaitRow.{WaitRow};

use crate::wait_row::WaitRow;

/// Picks a row of those that wait.
pub trait Chooser: Drop {
    /// The place that it will answer for a list, once it was asked others in order.
    ghost pick_after: { Self → List (List WaitRow) → List WaitRow → ℕ };

    /// A place in the list. Takes no memory.
    fn choose(&mut self, rows: &[WaitRow]) -> usize
        requires { rows.now ≢ [] }
        ensures within { result < length rows.now }
        ensures picked { result ≡ pick_after self.old [] rows.now }
        ensures after { (past : List (List WaitRow)) (list : List WaitRow)
            → pick_after self.new past list ≡ pick_after self.old (rows.now ∷ past) list };

    /// A place is one of the list's, where it has any.
    ghost below: { (c : Self) (past : List (List WaitRow)) (list : List WaitRow) → list ≢ []
        → pick_after c past list < length list };
}
