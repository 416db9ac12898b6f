ghost use Rattle.std.specs.Prelude.{◌≡◌, ◌<◌, ◌↔◌, Some, IsTrue, false, length};
ghost use Rattle.am_term.specs.declared.term.Term.{Term};
ghost use Rattle.am_order.specs.declared.sides.Oriented.{Oriented};
ghost use Rattle.am_order.specs.Order.{greater as is_greater};
ghost use Rattle.am_bank.specs.Trees.{tree};

use crate::order::greater;
use am_bank::{Bank, TermId};
use am_order::Oriented;
use am_term::Signature;

/// Whether the term of `s` is greater than that of `t` in the recursive path order with lexicographic
/// status. Equal terms are known by their ids. Takes no memory.
#[tactic(auto, using(crate::proofs::Walks::sides))]
pub fn greater_shared(sig: &Signature, bank: &Bank, s: TermId, t: TermId) -> bool
    requires left { s.0 < length bank.now }
    requires right { t.0 < length bank.now }
    ensures { (a b : Term) → tree bank.now s.0 ≡ Some a → tree bank.now t.0 ≡ Some b → result ≡ is_greater sig.now a b }
{
    greater(sig, bank, s, t)
}

/// Which of the terms of two ids is greater, if one is. Takes no memory.
#[tactic(auto, using(crate::proofs::Walks::sides))]
pub fn orient_shared(sig: &Signature, bank: &Bank, left: TermId, right: TermId) -> Oriented
    requires left { left.0 < length bank.now }
    requires right { right.0 < length bank.now }
    ensures left { (a b : Term) → tree bank.now left.0 ≡ Some a → tree bank.now right.0 ≡ Some b
        → (result ≡ Oriented.Left) ↔ IsTrue (is_greater sig.now a b) }
    ensures right { (a b : Term) → tree bank.now left.0 ≡ Some a → tree bank.now right.0 ≡ Some b
        → (result ≡ Oriented.Right) ↔ IsTrue (is_greater sig.now b a) }
    ensures neither { (a b : Term) → tree bank.now left.0 ≡ Some a → tree bank.now right.0 ≡ Some b
        → (result ≡ Oriented.Neither) ↔ ((is_greater sig.now a b ≡ false) × (is_greater sig.now b a ≡ false)) }
{
    if greater(sig, bank, left, right) {
        return Oriented::Left;
    }
    if greater(sig, bank, right, left) {
        return Oriented::Right;
    }
    Oriented::Neither
}
