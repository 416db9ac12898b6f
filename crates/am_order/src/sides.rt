ghost use Rattle.std.specs.Prelude.{◌≡◌, ◌↔◌, false, IsTrue};
ghost use Rattle.am_order.specs.Order.{greater as is_greater};

use crate::order::greater;
use am_term::{Signature, Term};

/// Which side of a pair is greater: the left one, the right one, or neither.
#[derive(Clone, Copy, Debug, PartialEq, Eq)]
pub enum Oriented {
    Left,
    Right,
    Neither,
}

/// Which of two terms is greater, if one is. Takes no memory.
#[tactic(auto, using(crate::proofs::Walks::sides))]
pub fn orient(sig: &Signature, left: &Term, right: &Term) -> Oriented
    ensures left { (result ≡ Oriented.Left) ↔ IsTrue (is_greater sig.now left.now right.now) }
    ensures right { (result ≡ Oriented.Right) ↔ IsTrue (is_greater sig.now right.now left.now) }
    ensures neither { (result ≡ Oriented.Neither) ↔ ((is_greater sig.now left.now right.now ≡ false)
        × (is_greater sig.now right.now left.now ≡ false)) }
{
    if greater(sig, left, right) {
        return Oriented::Left;
    }
    if greater(sig, right, left) {
        return Oriented::Right;
    }
    Oriented::Neither
}
