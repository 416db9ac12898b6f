ghost use Rattle.std.specs.Prelude.{◌≡◌, IfOk, map};
ghost use Rattle.am_syntax.specs.Scopes.{profile};
ghost use Rattle.am_theory.specs.Contents.{contents};
ghost use Rattle.am_example.specs.ExampleTheory.{te, te_sorts, te_parents, te_symbols};

use crate::axioms::axioms;
use crate::calls::{functions, literals, routines};
use crate::sorts::{copies, parents, reps, sort_names};
use crate::symbols::symbols;
use am_term::{NoMemory, Signature};
use am_theory::Theory;
use std::alloc::Global;

/// The example theory: places and directions in the solar system. Its sorts, symbols and axioms are this project's own.
pub fn example_theory(alloc: Global) -> Result<Theory, NoMemory>
    ensures { IfOk result (λ t. contents t ≡ te) }
{
    let sig = signature(alloc)?;
    let reps = reps(alloc)?;
    let copies = copies(alloc)?;
    let routines = routines(alloc)?;
    let functions = functions(alloc)?;
    let literals = literals(alloc)?;
    let axioms = axioms(alloc)?;
    Ok(Theory {
        version: 1,
        sig,
        reps,
        copies,
        routines,
        functions,
        literals,
        axioms,
    })
}

// The sorts and the symbols.
#[tactic(auto, using(crate::proofs::Orphans::orphans))]
fn signature(alloc: Global) -> Result<Signature, NoMemory>
    ensures sorts { IfOk result (λ sig. sig.sorts ≡ te_sorts) }
    ensures parents { IfOk result (λ sig. sig.parents ≡ te_parents) }
    ensures symbols { IfOk result (λ sig. map profile sig.symbols ≡ te_symbols) }
{
    let sorts = sort_names(alloc)?;
    let parents = parents(alloc)?;
    let symbols = symbols(alloc)?;
    Ok(Signature {
        sorts,
        parents,
        symbols,
    })
}
