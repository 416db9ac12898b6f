ghost use Rattle.std.specs.Prelude.{◌≡◌, ◌≤◌, IfOk, min, nat_lt};
ghost use Rattle.std.specs.List.{sum_by};
ghost use Rattle.am_term.specs.Instance.{instance, instances, instance_atom, instance_literals};
ghost use Rattle.am_term.specs.Weight.{nodes as nodes_in};
ghost use Rattle.am_clause.specs.Size.{atom_weight};
ghost use Rattle.am_clause.specs.Bound.{bound};
ghost use Rattle.am_calculus.specs.Sizes.{clause_nodes, counted_nodes};
ghost use Rattle.am_calculus.specs.Unmade.{any_larger, has_larger as is_larger_somewhere};

use am_clause::Clause;
use am_term::{Atom, Literal, NoMemory, Term};
use sqlite_items::Items;
use std::alloc::Global;

/// As many as a text may have bytes, so more nodes than all rows of a text have together. Sizes are counted to one
/// more.
pub const MOST_NODES: u32 = 16_777_216;

/// Terms for variables by their numbers, and how many nodes each has.
#[derive(Clone, Copy)]
pub struct Measured<'a> {
    pub terms: &'a [Term],
    pub sizes: &'a [u32],
    ghost counted: { sizes.now ≡ counted_nodes terms.now },
}

/// Whether the instance of a clause would have more than 16,777,216 nodes: it isn't made then. Bindings that don't
/// belong to a clause can make it too large for any memory, though both stand in a short text. The time is that of
/// going over clause and terms once. Fails on want of memory.
#[tactic(auto, using(crate::proofs::NodeCounts::counting))]
pub fn is_huge(alloc: Global, clause: &Clause, with: &[Term]) -> Result<bool, NoMemory>
    ensures { IfOk result (λ b. b ≡ nat_lt 16777216 (clause_nodes (bound with.now clause.now))) }
{
    let sizes = counted(alloc, with)?;
    let measured = Measured {
        terms: with,
        sizes: sizes.as_slice(),
    };
    Ok(instance_size(clause, &measured) > MOST_NODES)
}

// The nodes of the instance of a clause.
#[tactic(auto, using(crate::proofs::NodeCounts::counting))]
fn instance_size(clause: &Clause, with: &Measured) -> u32
    ensures { result ≡ min (clause_nodes (bound with.now.terms.now clause.now)) 16777217 }
{
    let mut total: u32 = 0;
    for literal in clause.literals.as_slice() {
        total = (total + atom_nodes(&literal.atom, with)).min(MOST_NODES + 1);
    }
    if let Some(terms) = &clause.answer {
        total = (total + all_nodes(terms.as_slice(), with)).min(MOST_NODES + 1);
    }
    total
}

/// The nodes of a clause.
#[tactic(auto, using(crate::proofs::NodeCounts::counting))]
pub fn clause_size(clause: &Clause) -> u32
    ensures { result ≡ min (clause_nodes clause.now) 16777217 }
{
    let none = Measured {
        terms: &[],
        sizes: &[],
    };
    instance_size(clause, &none)
}

/// Whether a literal of the instance of a clause, or its answer, has more nodes than that.
#[tactic(auto, using(crate::proofs::NodeCounts::counting))]
pub fn has_larger(clause: &Clause, with: &Measured, most: u32) -> bool
    requires { most ≤ 16777216 }
    ensures { result ≡ is_larger_somewhere most (bound with.now.terms.now clause.now) }
{
    is_any_larger(clause.literals.as_slice(), with, most)
        || match &clause.answer {
            Some(terms) => all_nodes(terms.as_slice(), with) > most,
            None => false,
        }
}

#[tactic(auto, using(crate::proofs::NodeCounts::counting))]
fn is_any_larger(literals: &[Literal], with: &Measured, most: u32) -> bool
    requires { most ≤ 16777216 }
    ensures { result ≡ any_larger most (instance_literals with.now.terms.now literals.now) }
{
    let mut rest = literals;
    while let [literal, behind @ ..] = rest {
        if atom_nodes(&literal.atom, with) > most {
            return true;
        }
        rest = behind;
    }
    false
}

/// The nodes of each term.
#[tactic(auto, using(crate::proofs::NodeCounts::counting))]
pub fn counted(alloc: Global, terms: &[Term]) -> Result<Items<u32>, NoMemory>
    ensures { IfOk result (λ sizes. sizes ≡ counted_nodes terms.now) }
{
    let mut sizes = Items::new(alloc);
    for term in terms {
        sizes.push(nodes(term))?;
    }
    Ok(sizes)
}

// The nodes of a term.
#[tactic(auto, using(crate::proofs::NodeCounts::counting))]
fn nodes(term: &Term) -> u32
    ensures { result ≡ min (nodes_in term.now) 16777217 }
{
    match term {
        Term::Var { .. } => 1,
        Term::In { .. } => 1,
        Term::App { args, .. } => {
            let mut total: u32 = 1;
            for arg in args.as_slice() {
                total = (total + nodes(arg)).min(MOST_NODES + 1);
            }
            total
        }
    }
}

// The nodes of the instance of an atom, by those of the terms for its variables.
#[tactic(auto, using(crate::proofs::NodeCounts::counting))]
pub fn atom_nodes(atom: &Atom, with: &Measured) -> u32
    ensures { result ≡ min (atom_weight (instance_atom with.now.terms.now atom.now)) 16777217 }
{
    match atom {
        Atom::Rel { args, .. } => all_nodes(args.as_slice(), with),
        Atom::Eq { left, right } => {
            (instance_nodes(left, with) + instance_nodes(right, with)).min(MOST_NODES + 1)
        }
    }
}

#[cycle(counting)]
#[tactic(auto, using(crate::proofs::NodeCounts::counting))]
pub fn all_nodes(terms: &[Term], with: &Measured) -> u32
    ensures { result ≡ min (sum_by nodes_in (instances with.now.terms.now terms.now)) 16777217 }
{
    let mut total: u32 = 0;
    for term in terms {
        total = (total + instance_nodes(term, with)).min(MOST_NODES + 1);
    }
    total
}

#[cycle(counting)]
#[tactic(auto, using(crate::proofs::NodeCounts::counting))]
pub fn instance_nodes(term: &Term, with: &Measured) -> u32
    ensures { result ≡ min (nodes_in (instance with.now.terms.now term.now)) 16777217 }
{
    match term {
        Term::Var { n, .. } => match with.sizes.get(*n as usize) {
            Some(size) => *size,
            None => 1,
        },
        Term::In { .. } => 1,
        Term::App { args, .. } => (all_nodes(args.as_slice(), with) + 1).min(MOST_NODES + 1),
    }
}
