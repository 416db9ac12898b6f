ghost use Rattle.std.specs.Prelude.{◌≡◌, ◌<◌, ◌≤◌, IfOk, OnOk, length, nat_eq, false, map};
ghost use Rattle.std.specs.List.{list_any};
ghost use Rattle.std.specs.HashSet.{contains};
ghost use Rattle.am_unify.specs.Occurrence.{number_occurs};
ghost use Rattle.am_sharing.specs.Bound.{id_bound};
ghost use Rattle.am_sharing.specs.Terms.{term_at, terms_at};
ghost use Rattle.am_shared_unify.specs.Tables.{AllLack};

use am_bank::{Bank, Node, TermId};
use am_sharing::node_at;
use am_term::NoMemory;
use std::alloc::Global;
use std::collections::HashSet;

// Whether a variable of this number stands in the term of an id. Each id is gone over once.
#[tactic(auto, using(crate::proofs::Standing::standing))]
pub fn occurs(alloc: Global, bank: &Bank, n: u32, id: TermId) -> Result<bool, NoMemory>
    requires { id.0 < length bank.now }
    ensures { IfOk result (λ b. b ≡ number_occurs n (term_at bank.now id.0)) }
{
    let mut seen = HashSet::new(alloc);
    occurs_beyond(bank, n, &mut seen, id)
}

// As `occurs`, where it stands in no term of the ids that were gone over.
#[cycle(occurring)]
#[tactic(auto, using(crate::proofs::Standing::standing))]
fn occurs_beyond(bank: &Bank, n: u32, seen: &mut HashSet<u64>, id: TermId) -> Result<bool, NoMemory>
    requires id { id.0 < length bank.now }
    requires seen { AllLack bank.now n (contains nat_eq seen.old) }
    ensures is { IfOk result (λ b. b ≡ number_occurs n (term_at bank.now id.0)) }
    ensures seen { OnOk result (AllLack bank.now n (contains nat_eq seen.new)) }
{
    if seen.contains(&id.0) {
        return Ok(false);
    }
    match node_at(bank, id) {
        Node::Var { n: m, .. } => Ok(n == *m),
        Node::In { .. } => Ok(false),
        Node::App { args, .. } => {
            if occurs_in_any(bank, n, seen, args.as_slice())? {
                return Ok(true);
            }
            seen.insert(id.0)?;
            Ok(false)
        }
    }
}

// Whether it stands in the term of one of some ids.
#[cycle(occurring)]
#[tactic(auto, using(crate::proofs::Standing::standing))]
fn occurs_in_any(
    bank: &Bank,
    n: u32,
    seen: &mut HashSet<u64>,
    ids: &[TermId],
) -> Result<bool, NoMemory>
    requires ids { id_bound ids.now ≤ length bank.now }
    requires seen { AllLack bank.now n (contains nat_eq seen.old) }
    ensures is { IfOk result (λ b. b ≡ list_any (number_occurs n) (terms_at bank.now ids.now)) }
    ensures seen { OnOk result (AllLack bank.now n (contains nat_eq seen.new)) }
{
    for id in ids {
        if occurs_beyond(bank, n, seen, *id)? {
            return Ok(true);
        }
    }
    Ok(false)
}
