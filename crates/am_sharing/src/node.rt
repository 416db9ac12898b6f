ghost use Rattle.std.specs.Prelude.{◌≡◌, ◌<◌, ◌≤◌, length};
ghost use Rattle.am_bank.specs.Bank.{IsBank};
ghost use Rattle.am_sharing.specs.Terms.{term_at, node_term};
ghost use Rattle.am_sharing.specs.Bound.{node_bound};

use am_bank::{Bank, Node, TermId};

/// The node of an id, of which the id's term is made; its arguments are smaller ids.
#[tactic(auto, using(crate::proofs::Nodes::reading))]
pub fn node_at(bank: &Bank, id: TermId) -> &Node
    requires { id.0 < length bank.now }
    ensures term { term_at bank.now id.0 ≡ node_term bank.now result.now }
    ensures below { node_bound result.now ≤ id.0 }
    ensures bank { IsBank bank.now }
{
    bank.node(id)
}
