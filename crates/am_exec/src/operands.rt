ghost use Rattle.std.specs.Prelude.{◌≡◌, ◌+◌, min, sum_by, option_copied, option_map, IfOk};
ghost use Rattle.am_term.specs.Weight.{nodes};
ghost use Rattle.am_exec.specs.Run.{name_in as named_by};
ghost use Rattle.am_exec.specs.States.{operand_term as operand_stands, operand_terms as operands_stand, listed_term, literal_term};

use crate::lookups::literal_at;
use crate::store::Store;
use am_fortran::Operand;
use am_term::{Name, NoMemory, SortId, SymId, Term, copy, weight};
use am_theory::Theory;
use sqlite_items::Items;
use std::alloc::Global;

/// The most nodes that a term may have that a name is to hold.
pub const MOST_NODES: u32 = 10_000;

/// The name that an operand is, and no literal. Takes no memory.
pub fn name_in(operand: &Operand) -> Option<&Name>
    ensures { option_copied result ≡ named_by operand.now }
{
    match operand {
        Operand::Name(name) => Some(name),
        Operand::Int(_) => None,
        Operand::Text(_) => None,
    }
}

/// A copy of the term that an operand stands for at a place, if it stands for one.
fn operand_term(
    alloc: Global,
    theory: &Theory,
    store: &Store,
    place: SortId,
    operand: &Operand,
) -> Result<Option<Term>, NoMemory>
    ensures { IfOk result (λ term. term ≡ operand_stands theory.now store.now place operand.now) }
{
    match operand {
        Operand::Name(name) => match store.get(name) {
            Some(term) => Ok(Some(copy(alloc, term)?)),
            None => Ok(None),
        },
        Operand::Int(_) => Ok(constant(alloc, literal_at(theory, place, operand))),
        Operand::Text(_) => Ok(constant(alloc, literal_at(theory, place, operand))),
    }
}

// The term of a symbol without arguments. Takes no memory.
fn constant(alloc: Global, symbol: Option<SymId>) -> Option<Term>
    ensures { result ≡ option_map literal_term symbol }
{
    match symbol {
        Some(f) => Some(Term::App {
            f,
            args: Items::new(alloc),
        }),
        None => None,
    }
}

/// Copies of the terms that operands stand for at their places; what stands for none is left out.
#[tactic(auto, using(crate::proofs::Stores::storing))]
pub fn operand_terms(
    alloc: Global,
    theory: &Theory,
    store: &Store,
    places: &[SortId],
    operands: &[Operand],
) -> Result<Items<Term>, NoMemory>
    ensures { IfOk result (λ terms. terms ≡ operands_stand theory.now store.now places.now operands.now) }
{
    let mut made = Items::new(alloc);
    let mut left = places;
    let mut rest = operands;
    while let [place, further @ ..] = left {
        match rest {
            [] => return Ok(made),
            [operand, behind @ ..] => {
                if let Some(term) = operand_term(alloc, theory, store, *place, operand)? {
                    made.push(term)?;
                }
                left = further;
                rest = behind;
            }
        }
    }
    Ok(made)
}

// The nodes of the term that an operand stands for at a place, but no more than one above the most.
// Takes no memory.
#[tactic(auto, using(crate::proofs::Stores::storing))]
fn operand_nodes(theory: &Theory, store: &Store, place: SortId, operand: &Operand) -> u32
    ensures { result ≡ min (sum_by nodes (listed_term (operand_stands theory.now store.now place operand.now)))
        (MOST_NODES + 1) }
{
    match operand {
        Operand::Name(name) => match store.get(name) {
            Some(term) => weight(term, MOST_NODES),
            None => 0,
        },
        Operand::Int(_) => constant_nodes(literal_at(theory, place, operand)),
        Operand::Text(_) => constant_nodes(literal_at(theory, place, operand)),
    }
}

#[tactic(auto, using(crate::proofs::Stores::storing))]
fn constant_nodes(symbol: Option<SymId>) -> u32
    ensures { result ≡ sum_by nodes (listed_term (option_map literal_term symbol)) }
{
    match symbol {
        Some(_) => 1,
        None => 0,
    }
}

/// The nodes of the terms that operands stand for at their places, together, but no more than one
/// above the most. Takes no memory.
#[tactic(auto, using(crate::proofs::Stores::storing))]
pub fn operands_nodes(
    theory: &Theory,
    store: &Store,
    places: &[SortId],
    operands: &[Operand],
) -> u32
    ensures { result ≡ min (sum_by nodes (operands_stand theory.now store.now places.now operands.now))
        (MOST_NODES + 1) }
{
    let mut total: u32 = 0;
    let mut left = places;
    let mut rest = operands;
    while let [place, further @ ..] = left {
        match rest {
            [] => return total,
            [operand, behind @ ..] => {
                total = (total + operand_nodes(theory, store, *place, operand)).min(MOST_NODES + 1);
                left = further;
                rest = behind;
            }
        }
    }
    total
}
