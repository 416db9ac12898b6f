ghost use Rattle.std.specs.Prelude.{◌≡◌, ◌+◌, ◌≤◌, min, sum_by};
ghost use Rattle.am_term.specs.Weight.{nodes};
ghost use Rattle.am_clause.specs.Size.{atom_weight, clause_weight};

use crate::clause::Clause;
use am_term::{Atom, Term, weight};

/// The sum over the literals of 1 and the nodes of the arguments or sides, or `cap + 1` where it is
/// above `cap`. The answer isn't counted. Takes no memory.
pub fn weight_of(clause: &Clause, cap: u32) -> u32
    requires { cap ≤ 1000000 }
    ensures { result ≡ min (clause_weight clause.now) (cap + 1) }
{
    let mut total: u32 = 0;
    for literal in clause.literals.as_slice() {
        total = (total + 1 + weight_of_atom(&literal.atom, cap)).min(cap + 1);
    }
    total
}

fn weight_of_atom(atom: &Atom, cap: u32) -> u32
    requires { cap ≤ 1000000 }
    ensures { result ≡ min (atom_weight atom.now) (cap + 1) }
{
    match atom {
        Atom::Rel { args, .. } => weight_of_terms(args.as_slice(), cap),
        Atom::Eq { left, right } => (weight(left, cap) + weight(right, cap)).min(cap + 1),
    }
}

fn weight_of_terms(terms: &[Term], cap: u32) -> u32
    requires { cap ≤ 1000000 }
    ensures { result ≡ min (sum_by nodes terms.now) (cap + 1) }
{
    let mut total: u32 = 0;
    for term in terms {
        total = (total + weight(term, cap)).min(cap + 1);
    }
    total
}
