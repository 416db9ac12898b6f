ghost use Rattle.std.specs.Prelude.{◌≡◌, ◌++◌, ◌∷◌, [], map, OnOk};
ghost use Rattle.am_clause.specs.Distinct.{among};
ghost use Rattle.am_plan.specs.Calls.{same_callee as are_same_callees, same_call};
ghost use Rattle.am_plan.specs.Fingerprints.{call_fingerprint as fingerprint_of_call};

use crate::call::{Callee, PlannedCall};
use crate::fingerprint_index::FingerprintIndex;
use crate::places::behind;
use am_term::{NoMemory, same_terms};
use sqlite_items::Items;
use std::alloc::Global;

/// The calls so far, with an index of their fingerprints.
#[derive(Drop)]
pub struct Seen<'a> {
    pub calls: Items<PlannedCall<'a>>,
    index: FingerprintIndex,
    ghost agrees: { index ≡ map fingerprint_of_call calls },
}

impl<'a> Seen<'a> {
    /// No calls. Takes no memory.
    pub fn new(alloc: Global) -> Seen<'a>
        ensures { result.calls ≡ [] }
    {
        Seen {
            calls: Items::new(alloc),
            index: FingerprintIndex::new(alloc),
        }
    }

    /// The calls.
    pub fn into_calls(self) -> Items<PlannedCall<'a>>
        ensures { result ≡ self.entry.calls }
    {
        let Seen { calls, index: _ } = self;
        calls
    }
}

/// The call is behind those before.
pub fn add<'a>(seen: &mut Seen<'a>, call: PlannedCall<'a>) -> Result<(), NoMemory>
    ensures { OnOk result (seen.new.calls ≡ seen.old.calls ++ call.entry ∷ []) }
{
    let fingerprint = call.fingerprint();
    seen.calls.push(call)?;
    if seen.index.push(fingerprint).is_err() {
        seen.calls.pop();
        return Err(NoMemory);
    }
    Ok(())
}

/// Whether the call is one of the calls. Takes no memory.
#[tactic(auto, using(crate::proofs::FingerprintLaws::seeing))]
pub fn is_called(call: &PlannedCall, seen: &Seen) -> bool
    ensures { result ≡ among same_call call.now seen.now.calls }
{
    match seen.index.place(call.fingerprint()) {
        None => false,
        Some(place) => is_listed(call, behind(seen.calls.as_slice(), place)),
    }
}

// Whether the call is one of the calls, by comparing it with each.
fn is_listed(call: &PlannedCall, calls: &[PlannedCall]) -> bool
    ensures { result ≡ among same_call call.now calls.now }
{
    let mut rest = calls;
    while let [other, behind @ ..] = rest {
        if same_callee(call.callee(), other.callee()) && same_terms(call.args(), other.args()) {
            return true;
        }
        rest = behind;
    }
    false
}

fn same_callee(a: Callee, b: Callee) -> bool
    ensures { result ≡ are_same_callees a b }
{
    match (a, b) {
        (Callee::Routine(j), Callee::Routine(k)) => j == k,
        (Callee::Function(j), Callee::Function(k)) => j == k,
        (Callee::Routine(_), Callee::Function(_)) => false,
        (Callee::Function(_), Callee::Routine(_)) => false,
    }
}
