ghost use Rattle.std.specs.Prelude.{◌≡◌, IfOk};
ghost use Rattle.am_term.specs.Same.{same_literal as is_same_literal};
ghost use Rattle.am_clause.specs.Distinct.{among, with_new};
ghost use Rattle.am_clause.specs.Merge.{merged};

use am_term::{Literal, NoMemory, copy_literal, same_literal};
use sqlite_items::Items;
use std::alloc::Global;

/// The literals without those that are equal to one before them.
#[tactic(auto, using(crate::proofs::Merges::merging))]
pub fn merge(alloc: Global, literals: &[Literal]) -> Result<Items<Literal>, NoMemory>
    ensures { IfOk result (λ ls. ls ≡ merged literals.now) }
{
    add_new(alloc, Items::new(alloc), literals)
}

// What was kept, and behind it each of the literals that is new there.
#[tactic(auto, using(crate::proofs::Merges::merging))]
pub fn add_new(
    alloc: Global,
    kept: Items<Literal>,
    literals: &[Literal],
) -> Result<Items<Literal>, NoMemory>
    ensures { IfOk result (λ ls. ls ≡ with_new is_same_literal kept literals.now) }
{
    let mut made = kept;
    for literal in literals {
        if !contains(made.as_slice(), literal) {
            made.push(copy_literal(alloc, literal)?)?;
        }
    }
    Ok(made)
}

/// Whether a literal is equal to one of the list. Takes no memory.
#[tactic(auto, using(crate::proofs::Merges::merging))]
pub fn contains(literals: &[Literal], literal: &Literal) -> bool
    ensures { result ≡ among is_same_literal literal.now literals.now }
{
    for other in literals {
        if same_literal(literal, other) {
            return true;
        }
    }
    false
}
