ghost use Rattle.std.specs.Prelude.{◌≡◌, IfOk};

use crate::clause::Clause;
use am_term::{Literal, NoMemory, Term, copies, copy_literal};
use sqlite_items::Items;
use std::alloc::Global;

/// A copy of a clause.
#[tactic(auto, using(crate::proofs::Copies::copying))]
pub fn copy_clause(alloc: Global, clause: &Clause) -> Result<Clause, NoMemory>
    ensures { IfOk result (λ c. c ≡ clause.now) }
{
    let literals = copy_literals(alloc, clause.literals.as_slice())?;
    let answer = match &clause.answer {
        Some(terms) => Some(copies(alloc, terms.as_slice())?),
        None => None,
    };
    Ok(Clause { literals, answer })
}

#[tactic(auto, using(crate::proofs::Copies::copying))]
fn copy_literals(alloc: Global, literals: &[Literal]) -> Result<Items<Literal>, NoMemory>
    ensures { IfOk result (λ ls. ls ≡ literals.now) }
{
    let mut made = Items::new(alloc);
    for literal in literals {
        made.push(copy_literal(alloc, literal)?)?;
    }
    Ok(made)
}

/// A copy of lists of terms.
#[tactic(auto, using(crate::proofs::Copies::copying))]
pub fn copy_lists(alloc: Global, lists: &[Items<Term>]) -> Result<Items<Items<Term>>, NoMemory>
    ensures { IfOk result (λ tss. tss ≡ lists.now) }
{
    let mut made = Items::new(alloc);
    for list in lists {
        made.push(copies(alloc, list.as_slice())?)?;
    }
    Ok(made)
}
