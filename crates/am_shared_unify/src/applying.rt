ghost use Rattle.std.specs.Prelude.{◌≡◌, ◌<◌, ◌≤◌, ◌+◌, IfOk, OnOk, length, max, nat_eq};
ghost use Rattle.std.specs.HashMap.{get};
ghost use Rattle.am_unify.specs.Substitution.{applies, apply, replace_in};
ghost use Rattle.am_bank.specs.Bank.{Grows};
ghost use Rattle.am_sharing.specs.Bound.{id_bound};
ghost use Rattle.am_sharing.specs.Pairs.{pairs_bound};
ghost use Rattle.am_sharing.specs.Terms.{term_at, terms_at};
ghost use Rattle.am_shared_unify.specs.Sides.{id_for, listed_at, sides_applied, sides_at, term_sides};
ghost use Rattle.am_shared_unify.specs.Tables.{AreImages};
ghost use Rattle.am_shared_unify.specs.Unifying.{pair_ids_bound};

use am_bank::{Bank, Node, TermId};
use am_sharing::node_at;
use am_term::NoMemory;
use sqlite_items::Items;
use std::alloc::Global;
use std::collections::HashMap;

// The id of what an id's term becomes, where each variable becomes the term of the id that it is bound to.
#[tactic(auto, using(crate::proofs::Becoming::becoming))]
pub fn applied(
    alloc: Global,
    bank: &mut Bank,
    found: &[(u32, TermId)],
    id: TermId,
) -> Result<TermId, NoMemory>
    requires id { id.0 < length bank.old }
    requires found { pairs_bound found.now ≤ length bank.old }
    ensures is { IfOk result (λ j. term_at bank.new j.0 ≡ apply (listed_at bank.old found.now)
        (term_at bank.old id.0)) }
    ensures within { IfOk result (λ j. j.0 < length bank.new) }
    ensures grows { Grows bank.old bank.new }
    ensures longer { length bank.old ≤ length bank.new }
{
    let mut images = HashMap::new(alloc);
    image(alloc, bank, found, &mut images, id)
}

// The pairs in which the terms of a variable's number become the term of an id.
#[tactic(auto, using(crate::proofs::Becoming::replacing))]
pub fn replaced_in(
    alloc: Global,
    bank: &mut Bank,
    pairs: &[(TermId, TermId)],
    n: u32,
    by: TermId,
) -> Result<Items<(TermId, TermId)>, NoMemory>
    requires pairs { pair_ids_bound pairs.now ≤ length bank.old }
    requires by { by.0 < length bank.old }
    ensures is { IfOk result (λ ps. term_sides bank.new ps ≡ replace_in n (term_at bank.old by.0)
        (term_sides bank.old pairs.now)) }
    ensures within { IfOk result (λ ps. pair_ids_bound ps ≤ length bank.new) }
    ensures grows { Grows bank.old bank.new }
    ensures longer { length bank.old ≤ length bank.new }
{
    let mut images = HashMap::new(alloc);
    let found = [(n, by)];
    let mut made = Items::new(alloc);
    for pair in pairs {
        made.push(image_pair(alloc, bank, &found, &mut images, *pair)?)?;
    }
    Ok(made)
}

// Both sides of a pair.
#[tactic(auto, using(crate::proofs::Becoming::replacing))]
fn image_pair(
    alloc: Global,
    bank: &mut Bank,
    found: &[(u32, TermId)],
    images: &mut HashMap<u64, TermId>,
    pair: (TermId, TermId),
) -> Result<(TermId, TermId), NoMemory>
    requires left { pair.0.0 < length bank.old }
    requires right { pair.1.0 < length bank.old }
    requires found { pairs_bound found.now ≤ length bank.old }
    requires images { AreImages bank.old (listed_at bank.old found.now) (get nat_eq images.old) }
    ensures sides { IfOk result (λ p. sides_at bank.new p ≡ sides_applied (listed_at bank.old found.now)
        (sides_at bank.old pair)) }
    ensures within_left { IfOk result (λ p. p.0.0 < length bank.new) }
    ensures within_right { IfOk result (λ p. p.1.0 < length bank.new) }
    ensures images { OnOk result (AreImages bank.new (listed_at bank.old found.now) (get nat_eq images.new)) }
    ensures grows { Grows bank.old bank.new }
    ensures longer { length bank.old ≤ length bank.new }
{
    let left = image(alloc, bank, found, images, pair.0)?;
    let right = image(alloc, bank, found, images, pair.1)?;
    Ok((left, right))
}

// As `applied`, with a table of what is known. Each id is gone over once.
#[cycle(images)]
#[tactic(auto, using(crate::proofs::Becoming::becoming))]
fn image(
    alloc: Global,
    bank: &mut Bank,
    found: &[(u32, TermId)],
    images: &mut HashMap<u64, TermId>,
    id: TermId,
) -> Result<TermId, NoMemory>
    requires id { id.0 < length bank.old }
    requires found { pairs_bound found.now ≤ length bank.old }
    requires images { AreImages bank.old (listed_at bank.old found.now) (get nat_eq images.old) }
    ensures is { IfOk result (λ j. term_at bank.new j.0 ≡ apply (listed_at bank.old found.now)
        (term_at bank.old id.0)) }
    ensures within { IfOk result (λ j. j.0 < length bank.new) }
    ensures images { OnOk result (AreImages bank.new (listed_at bank.old found.now) (get nat_eq images.new)) }
    ensures grows { Grows bank.old bank.new }
    ensures longer { length bank.old ≤ length bank.new }
{
    if let Some(known) = images.get(&id.0) {
        return Ok(*known);
    }
    let made = new_image(alloc, bank, found, images, id)?;
    images.insert(id.0, made)?;
    Ok(made)
}

// That of an id that the table doesn't have. Where no argument changes the id stays.
#[cycle(images)]
#[tactic(auto, using(crate::proofs::Becoming::becoming))]
fn new_image(
    alloc: Global,
    bank: &mut Bank,
    found: &[(u32, TermId)],
    images: &mut HashMap<u64, TermId>,
    id: TermId,
) -> Result<TermId, NoMemory>
    requires id { id.0 < length bank.old }
    requires found { pairs_bound found.now ≤ length bank.old }
    requires images { AreImages bank.old (listed_at bank.old found.now) (get nat_eq images.old) }
    ensures is { IfOk result (λ j. term_at bank.new j.0 ≡ apply (listed_at bank.old found.now)
        (term_at bank.old id.0)) }
    ensures within { IfOk result (λ j. j.0 < length bank.new) }
    ensures images { OnOk result (AreImages bank.new (listed_at bank.old found.now) (get nat_eq images.new)) }
    ensures grows { Grows bank.old bank.new }
    ensures longer { length bank.old ≤ length bank.new }
{
    match node_at(bank, id) {
        Node::Var { n, .. } => Ok(bound_id(found, *n, id)),
        Node::In { .. } => Ok(id),
        Node::App { f, args } => {
            let f = *f;
            let ids = Items::from_slice(alloc, args.as_slice())?;
            let args = image_all(alloc, bank, found, images, ids.as_slice())?;
            if args.as_slice() == ids.as_slice() {
                return Ok(id);
            }
            let made = bank.intern(Node::App { f, args })?;
            Ok(made)
        }
    }
}

// Those of some ids.
#[cycle(images)]
#[tactic(auto, using(crate::proofs::Becoming::becoming))]
fn image_all(
    alloc: Global,
    bank: &mut Bank,
    found: &[(u32, TermId)],
    images: &mut HashMap<u64, TermId>,
    ids: &[TermId],
) -> Result<Vec<TermId>, NoMemory>
    requires ids { id_bound ids.now ≤ length bank.old }
    requires found { pairs_bound found.now ≤ length bank.old }
    requires images { AreImages bank.old (listed_at bank.old found.now) (get nat_eq images.old) }
    ensures are { IfOk result (λ js. terms_at bank.new js.items ≡ applies (listed_at bank.old found.now)
        (terms_at bank.old ids.now)) }
    ensures within { IfOk result (λ js. id_bound js.items ≤ length bank.new) }
    ensures images { OnOk result (AreImages bank.new (listed_at bank.old found.now) (get nat_eq images.new)) }
    ensures grows { Grows bank.old bank.new }
    ensures longer { length bank.old ≤ length bank.new }
{
    let mut made = Vec::new(alloc);
    for id in ids {
        let next = image(alloc, bank, found, images, *id)?;
        made.push(next)?;
    }
    Ok(made)
}

// The id that a number is bound to, or else another.
#[tactic(auto, using(crate::proofs::Becoming::binding))]
fn bound_id(found: &[(u32, TermId)], n: u32, other: TermId) -> TermId
    ensures { result ≡ id_for found.now n other }
{
    for pair in found {
        if pair.0 == n {
            return pair.1;
        }
    }
    other
}
