ghost use Rattle.std.specs.Prelude.{◌≡◌, ◌+◌, ◌++◌, ◌∷◌, [], IfOk, OnOk};
ghost use Rattle.am_simplify.specs.Places.{places as places_of, places_all, places_of_atom};

use am_term::{Atom, NoMemory, Term};
use sqlite_items::Items;
use std::alloc::Global;

/// The paths of an atom's parts that aren't variables, in preorder.
pub fn places(alloc: Global, atom: &Atom) -> Result<Items<Items<u32>>, NoMemory>
    ensures { IfOk result (λ ps. ps ≡ places_of_atom atom.now) }
{
    let mut found = Items::new(alloc);
    match atom {
        Atom::Rel { args, .. } => add_all(alloc, &mut found, args.as_slice(), &[])?,
        Atom::Eq { left, right } => {
            add_at(alloc, &mut found, left, &[], 1)?;
            add_at(alloc, &mut found, right, &[], 2)?;
        }
    }
    Ok(found)
}

// Behind what was found, the places of a term that stands at a path.
#[cycle(placing)]
#[tactic(auto, using(crate::proofs::Neighbours::placing))]
fn add(
    alloc: Global,
    out: &mut Items<Items<u32>>,
    term: &Term,
    path: &[u32],
) -> Result<(), NoMemory>
    ensures { OnOk result (out.new ≡ out.old ++ places_of term.now path.now) }
{
    match term {
        Term::Var { .. } => Ok(()),
        Term::In { .. } => {
            out.push(Items::from_slice(alloc, path)?)?;
            Ok(())
        }
        Term::App { args, .. } => {
            out.push(Items::from_slice(alloc, path)?)?;
            add_all(alloc, out, args.as_slice(), path)
        }
    }
}

// The same of terms that are the first and later arguments of what stands at a path.
#[cycle(placing)]
#[tactic(auto, using(crate::proofs::Neighbours::placing))]
fn add_all(
    alloc: Global,
    out: &mut Items<Items<u32>>,
    terms: &[Term],
    path: &[u32],
) -> Result<(), NoMemory>
    ensures { OnOk result (out.new ≡ out.old ++ places_all 1 terms.now path.now) }
{
    let mut k: u32 = 1;
    for term in terms {
        add_at(alloc, out, term, path, k)?;
        k = after(k)?;
    }
    Ok(())
}

// The same of a term that is the k-th argument of what stands at a path.
#[cycle(placing)]
#[tactic(auto, using(crate::proofs::Neighbours::placing))]
fn add_at(
    alloc: Global,
    out: &mut Items<Items<u32>>,
    term: &Term,
    path: &[u32],
    k: u32,
) -> Result<(), NoMemory>
    ensures { OnOk result (out.new ≡ out.old ++ places_of term.now (path.now ++ k ∷ [])) }
{
    let mut here = Items::from_slice(alloc, path)?;
    here.push(k)?;
    add(alloc, out, term, here.as_slice())
}

/// The number behind another. Want of memory where there is none, which no list in memory reaches.
pub fn after(n: u32) -> Result<u32, NoMemory>
    ensures { IfOk result (λ m. m ≡ n + 1) }
{
    if n == u32::MAX {
        return Err(NoMemory);
    }
    Ok(n + 1)
}
