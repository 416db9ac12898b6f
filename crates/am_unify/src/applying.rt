ghost use Rattle.std.specs.Prelude.{◌≡◌, IfOk};
ghost use Rattle.am_term.specs.declared.term.Term.TheVariants.{Var};
ghost use Rattle.am_unify.specs.Substitution.{apply, bound_to, listed, insert_binding, replace, replace_in};
ghost use Rattle.am_unify.specs.Opening.{starts_below};

use am_term::{NoMemory, SortId, Term, copy};
use sqlite_items::Items;
use std::alloc::Global;

// The term with variable n replaced by another term.
#[tactic(auto, using(crate::proofs::Walks::replacing))]
fn replaced(alloc: Global, term: &Term, n: u32, by: &Term) -> Result<Term, NoMemory>
    ensures { IfOk result (λ t. t ≡ replace n by.now term.now) }
{
    match term {
        Term::Var { n: m, sort } => {
            if n == *m {
                copy(alloc, by)
            } else {
                Ok(Term::Var { n: *m, sort: *sort })
            }
        }
        Term::In { k } => Ok(Term::In { k: *k }),
        Term::App { f, args } => {
            let mut made = Items::new(alloc);
            for arg in args.as_slice() {
                made.push(replaced(alloc, arg, n, by)?)?;
            }
            Ok(Term::App { f: *f, args: made })
        }
    }
}

// The pairs with variable n replaced by a term.
#[tactic(auto, using(crate::proofs::Walks::replacing))]
pub fn replaced_in(
    alloc: Global,
    pairs: &[(Term, Term)],
    n: u32,
    by: &Term,
) -> Result<Items<(Term, Term)>, NoMemory>
    ensures { IfOk result (λ ps. ps ≡ replace_in n by.now pairs.now) }
{
    let mut made = Items::new(alloc);
    for pair in pairs {
        let left = replaced(alloc, &pair.0, n, by)?;
        let right = replaced(alloc, &pair.1, n, by)?;
        made.push((left, right))?;
    }
    Ok(made)
}

// The term listed for a variable, or the variable.
#[tactic(auto, using(crate::proofs::Walks::applying))]
fn binding_of(alloc: Global, found: &[(u32, Term)], n: u32, sort: SortId) -> Result<Term, NoMemory>
    ensures { IfOk result (λ t. t ≡ bound_to found.now n (Var n sort)) }
{
    for binding in found {
        if binding.0 == n {
            return copy(alloc, &binding.1);
        }
    }
    Ok(Term::Var { n, sort })
}

// The term with each variable replaced by what is listed for it.
#[tactic(auto, using(crate::proofs::Walks::applying))]
pub fn applied(alloc: Global, term: &Term, found: &[(u32, Term)]) -> Result<Term, NoMemory>
    ensures { IfOk result (λ t. t ≡ apply (listed found.now) term.now) }
{
    match term {
        Term::Var { n, sort } => binding_of(alloc, found, *n, *sort),
        Term::In { k } => Ok(Term::In { k: *k }),
        Term::App { f, args } => {
            let mut made = Items::new(alloc);
            for arg in args.as_slice() {
                made.push(applied(alloc, arg, found)?)?;
            }
            Ok(Term::App { f: *f, args: made })
        }
    }
}

fn first_below(found: &[(u32, Term)], n: u32) -> bool
    ensures { result ≡ starts_below found.now n }
{
    let [first, ..] = found else {
        return false;
    };
    first.0 < n
}

// One more binding, in order of the numbers.
#[tactic(auto, using(crate::proofs::Walks::inserting))]
pub fn inserted(
    alloc: Global,
    found: Items<(u32, Term)>,
    n: u32,
    term: Term,
) -> Result<Items<(u32, Term)>, NoMemory>
    ensures { IfOk result (λ bs. bs ≡ insert_binding n term found) }
{
    let mut made = Items::new(alloc);
    let mut rest = found;
    'below: while first_below(rest.as_slice(), n) {
        made.push(rest.remove(0))?;
    }
    made.push((n, term))?;
    made.append(rest)?;
    Ok(made)
}
