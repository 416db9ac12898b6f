ghost use Rattle.std.specs.Prelude.{◌≡◌, IfOk};
ghost use Rattle.am_term.specs.Instance.{instance, instances};
ghost use Rattle.am_term.specs.Instance.{instance_atom, instance_literals};
ghost use Rattle.am_clause.specs.Bound.{instance_answer, bound};

use crate::sizing::is_huge;
use am_clause::Clause;
use am_term::{Atom, Literal, NoMemory, Term, copy};
use sqlite_items::Items;
use std::alloc::Global;

/// The instance of a term: variable n replaced by the n-th member of the list, if there is one.
#[cycle(binding)]
#[tactic(auto, using(crate::proofs::Bindings::binding))]
pub fn bind(alloc: Global, term: &Term, with: &[Term]) -> Result<Term, NoMemory>
    ensures { IfOk result (λ t. t ≡ instance with.now term.now) }
{
    match term {
        Term::Var { n, sort } => match sqlite_items::at(with, *n as usize) {
            Some(image) => copy(alloc, image),
            None => Ok(Term::Var { n: *n, sort: *sort }),
        },
        Term::In { k } => Ok(Term::In { k: *k }),
        Term::App { f, args } => {
            let args = bind_all(alloc, args.as_slice(), with)?;
            Ok(Term::App { f: *f, args })
        }
    }
}

/// The instances of some terms.
#[cycle(binding)]
#[tactic(auto, using(crate::proofs::Bindings::binding))]
pub fn bind_all(alloc: Global, terms: &[Term], with: &[Term]) -> Result<Items<Term>, NoMemory>
    ensures { IfOk result (λ ts. ts ≡ instances with.now terms.now) }
{
    let mut made = Items::new(alloc);
    for term in terms {
        made.push(bind(alloc, term, with)?)?;
    }
    Ok(made)
}

#[tactic(auto, using(crate::proofs::Bindings::binding))]
pub fn bind_atom(alloc: Global, atom: &Atom, with: &[Term]) -> Result<Atom, NoMemory>
    ensures { IfOk result (λ a. a ≡ instance_atom with.now atom.now) }
{
    match atom {
        Atom::Rel { r, args } => {
            let args = bind_all(alloc, args.as_slice(), with)?;
            Ok(Atom::Rel { r: *r, args })
        }
        Atom::Eq { left, right } => {
            let left = bind(alloc, left, with)?;
            let right = bind(alloc, right, with)?;
            Ok(Atom::Eq { left, right })
        }
    }
}

#[tactic(auto, using(crate::proofs::Bindings::binding))]
fn bind_literals(
    alloc: Global,
    literals: &[Literal],
    with: &[Term],
) -> Result<Items<Literal>, NoMemory>
    ensures { IfOk result (λ ls. ls ≡ instance_literals with.now literals.now) }
{
    let mut made = Items::new(alloc);
    for literal in literals {
        let atom = bind_atom(alloc, &literal.atom, with)?;
        made.push(Literal {
            positive: literal.positive,
            atom,
        })?;
    }
    Ok(made)
}

#[tactic(auto, using(crate::proofs::Bindings::binding))]
fn bind_answer(
    alloc: Global,
    answer: &Option<Items<Term>>,
    with: &[Term],
) -> Result<Option<Items<Term>>, NoMemory>
    ensures { IfOk result (λ o. o ≡ instance_answer with.now answer.now) }
{
    match answer {
        Some(terms) => Ok(Some(bind_all(alloc, terms.as_slice(), with)?)),
        None => Ok(None),
    }
}

/// The instance of a clause, nothing merged. No memory too where it would have more than 16,777,216 nodes.
#[tactic(auto, using(crate::proofs::Bindings::binding))]
pub fn bind_clause(alloc: Global, clause: &Clause, with: &[Term]) -> Result<Clause, NoMemory>
    ensures { IfOk result (λ c. c ≡ bound with.now clause.now) }
{
    if is_huge(alloc, clause, with)? {
        return Err(NoMemory);
    }
    let literals = bind_literals(alloc, clause.literals.as_slice(), with)?;
    let answer = bind_answer(alloc, &clause.answer, with)?;
    Ok(Clause { literals, answer })
}
