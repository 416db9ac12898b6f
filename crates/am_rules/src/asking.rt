ghost use Rattle.std.specs.Prelude.{◌≡◌, [], ◌∷◌, Some, IfOk, option_map};
ghost use Rattle.std.specs.List.{zip};
ghost use Rattle.am_term.specs.declared.term.Term.TheVariants.{Var};
ghost use Rattle.am_unify.specs.Substitution.{bound_to};
ghost use Rattle.am_rules.specs.Asked.{zipped, atom_pairs, answer_pairs, asked};
ghost use Rattle.am_rules.specs.Solving.{apart, shifted, all_shifted, images};

use crate::numbers::raised;
use am_term::{Atom, NoMemory, SortId, Term, copies, copy};
use sqlite_items::Items;
use std::alloc::Global;

// The term with numbers of variables that are k greater.
#[cycle(shifting)]
#[tactic(auto, using(crate::proofs::Walks::shifting))]
pub fn shift(alloc: Global, term: &Term, k: u32) -> Result<Term, NoMemory>
    ensures { IfOk result (λ t. t ≡ shifted k term.now) }
{
    match term {
        Term::Var { n, sort } => Ok(Term::Var {
            n: raised(*n, k)?,
            sort: *sort,
        }),
        Term::In { k: input } => Ok(Term::In { k: *input }),
        Term::App { f, args } => {
            let args = shift_all(alloc, args.as_slice(), k)?;
            Ok(Term::App { f: *f, args })
        }
    }
}

#[cycle(shifting)]
#[tactic(auto, using(crate::proofs::Walks::shifting))]
fn shift_all(alloc: Global, terms: &[Term], k: u32) -> Result<Items<Term>, NoMemory>
    ensures { IfOk result (λ ts. ts ≡ all_shifted k terms.now) }
{
    let mut made = Items::new(alloc);
    for term in terms {
        made.push(shift(alloc, term, k)?)?;
    }
    Ok(made)
}

// The pairs of two lists of one length, the right terms with numbers that are k greater.
#[tactic(auto, using(crate::proofs::Walks::pairing))]
fn pairs_apart(
    alloc: Global,
    left: &[Term],
    right: &[Term],
    k: u32,
) -> Result<Option<Items<(Term, Term)>>, NoMemory>
    ensures { IfOk result (λ o. o ≡ option_map (apart k) (zipped left.now right.now)) }
{
    if left.len() != right.len() {
        return Ok(None);
    }
    let left = copies(alloc, left)?;
    let right = shift_all(alloc, right, k)?;
    Ok(Some(zip_items(alloc, left, right)?))
}

// The pairs of the members of two lists.
#[tactic(auto, using(crate::proofs::Walks::zipping))]
fn zip_items(
    alloc: Global,
    left: Items<Term>,
    right: Items<Term>,
) -> Result<Items<(Term, Term)>, NoMemory>
    ensures { IfOk result (λ ps. ps ≡ zip left right) }
{
    let mut made = Items::new(alloc);
    let mut left = left;
    let mut right = right;
    'pairs: while !left.is_empty() {
        if right.is_empty() {
            return Ok(made);
        }
        let first = left.remove(0);
        let second = right.remove(0);
        made.push((first, second))?;
    }
    Ok(made)
}

// Two pairs.
fn two_pairs(
    alloc: Global,
    first: (Term, Term),
    second: (Term, Term),
) -> Result<Items<(Term, Term)>, NoMemory>
    ensures { IfOk result (λ ps. ps ≡ first ∷ second ∷ []) }
{
    let mut made = Items::new(alloc);
    made.push(first)?;
    made.push(second)?;
    Ok(made)
}

#[tactic(auto, using(crate::proofs::Walks::pairing))]
fn atoms_apart(
    alloc: Global,
    first: &Atom,
    second: &Atom,
    k: u32,
) -> Result<Option<Items<(Term, Term)>>, NoMemory>
    ensures { IfOk result (λ o. o ≡ option_map (apart k) (atom_pairs first.now second.now)) }
{
    match (first, second) {
        (Atom::Rel { r, args }, Atom::Rel { r: q, args: others }) => {
            if r.0 == q.0 {
                pairs_apart(alloc, args.as_slice(), others.as_slice(), k)
            } else {
                Ok(None)
            }
        }
        (
            Atom::Eq { left, right },
            Atom::Eq {
                left: other_left,
                right: other_right,
            },
        ) => {
            let lefts = (copy(alloc, left)?, shift(alloc, other_left, k)?);
            let rights = (copy(alloc, right)?, shift(alloc, other_right, k)?);
            Ok(Some(two_pairs(alloc, lefts, rights)?))
        }
        (Atom::Rel { .. }, Atom::Eq { .. }) => Ok(None),
        (Atom::Eq { .. }, Atom::Rel { .. }) => Ok(None),
    }
}

#[tactic(auto, using(crate::proofs::Walks::pairing))]
pub fn answers_apart(
    alloc: Global,
    first: &Option<Items<Term>>,
    second: &Option<Items<Term>>,
    k: u32,
) -> Result<Option<Items<(Term, Term)>>, NoMemory>
    ensures { IfOk result (λ o. o ≡ option_map (apart k) (answer_pairs first.now second.now)) }
{
    match first {
        Some(terms) => match second {
            Some(others) => pairs_apart(alloc, terms.as_slice(), others.as_slice(), k),
            None => Ok(Some(Items::new(alloc))),
        },
        None => Ok(Some(Items::new(alloc))),
    }
}

/// The pairs of two atoms and two answers, the right terms with numbers that are k greater.
#[tactic(auto, using(crate::proofs::Walks::asking))]
pub fn asked_apart(
    alloc: Global,
    first: &Atom,
    second: &Atom,
    answer: &Option<Items<Term>>,
    other: &Option<Items<Term>>,
    k: u32,
) -> Result<Option<Items<(Term, Term)>>, NoMemory>
    ensures { IfOk result (λ o. o ≡ option_map (apart k)
        (asked (Some first.now) (Some second.now) answer.now other.now)) }
{
    match atoms_apart(alloc, first, second, k)? {
        Some(pairs) => match answers_apart(alloc, answer, other, k)? {
            Some(more) => {
                let mut pairs = pairs;
                pairs.append(more)?;
                Ok(Some(pairs))
            }
            None => Ok(None),
        },
        None => Ok(None),
    }
}

// The term listed for a variable, or the variable.
#[tactic(auto, using(crate::proofs::Walks::applying))]
fn binding_of(alloc: Global, found: &[(u32, Term)], n: u32, sort: SortId) -> Result<Term, NoMemory>
    ensures { IfOk result (λ t. t ≡ bound_to found.now n (Var n sort)) }
{
    for binding in found {
        if binding.0 == n {
            return copy(alloc, &binding.1);
        }
    }
    Ok(Term::Var { n, sort })
}

/// What is listed for the variables, whose numbers are k greater there.
pub fn images_of(
    alloc: Global,
    found: &[(u32, Term)],
    k: u32,
    variables: &[(u32, SortId)],
) -> Result<Items<Term>, NoMemory>
    ensures { IfOk result (λ ts. ts ≡ images found.now k variables.now) }
{
    let mut made = Items::new(alloc);
    let mut rest = variables;
    'images: while let [variable, behind @ ..] = rest {
        let n = raised(variable.0, k)?;
        made.push(binding_of(alloc, found, n, variable.1)?)?;
        rest = behind;
    }
    Ok(made)
}
