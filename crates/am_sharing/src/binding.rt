ghost use Rattle.std.specs.Prelude.{◌≡◌, ◌++◌, ◌∷◌, IfOk};
ghost use Rattle.am_sharing.specs.Pairs.{held_id, insert_id};

use am_bank::TermId;
use am_term::NoMemory;
use sqlite_items::Items;
use std::alloc::Global;

// Whether a number is bound to this id, if it is bound.
#[tactic(auto, using(crate::proofs::Pairs::holding))]
pub fn held(found: &[(u32, TermId)], n: u32, id: TermId) -> Option<bool>
    ensures { result ≡ held_id found.now n id.0 }
{
    for pair in found {
        if pair.0 == n {
            return Some(pair.1 == id);
        }
    }
    None
}

/// The pairs with one more, in order of the numbers.
#[tactic(auto, using(crate::proofs::Pairs::inserting))]
pub fn inserted(
    alloc: Global,
    found: &[(u32, TermId)],
    n: u32,
    id: TermId,
) -> Result<Items<(u32, TermId)>, NoMemory>
    ensures { IfOk result (λ ps. ps ≡ insert_id n id found.now) }
{
    let mut made = Items::new(alloc);
    let mut rest = found;
    while let [first, behind @ ..] = rest {
        if n <= first.0 {
            return followed(made, (n, id), rest);
        }
        made.push(*first)?;
        rest = behind;
    }
    followed(made, (n, id), rest)
}

// What is made, then one more pair, then the rest.
#[tactic(auto, using(crate::proofs::Pairs::inserting))]
fn followed(
    made: Items<(u32, TermId)>,
    pair: (u32, TermId),
    rest: &[(u32, TermId)],
) -> Result<Items<(u32, TermId)>, NoMemory>
    ensures { IfOk result (λ ps. ps ≡ made ++ pair ∷ rest.now) }
{
    let mut all = made;
    all.push(pair)?;
    for next in rest {
        all.push(*next)?;
    }
    Ok(all)
}
