ghost use Rattle.std.specs.Prelude.{◌≡◌, ◌++◌, ◌∷◌, [], IfOk, map};
ghost use Rattle.am_term.specs.declared.term.Term.TheVariants.{Var, App};

use am_term::{Name, NoMemory, SortId, SymId, Term};
use sqlite_items::Items;
use std::alloc::Global;

/// A variable as it is declared: its name and its sort.
pub type Declared = (&'static str, SortId);

/// The variables with their names.
pub fn named(alloc: Global, rows: &[Declared]) -> Result<Items<(Name, SortId)>, NoMemory>
    ensures { IfOk result (λ named. named ≡ map (λ row. (row.0.now, row.1)) rows.now) }
{
    let mut named = Items::new(alloc);
    for (name, sort) in rows {
        named.push((Name::new(alloc, name)?, *sort))?;
    }
    Ok(named)
}

/// These variables as terms.
pub fn variables(alloc: Global, of: &[(u32, SortId)]) -> Result<Items<Term>, NoMemory>
    ensures { IfOk result (λ terms. terms ≡ map (λ v. Var v.0 v.1) of.now) }
{
    let mut terms = Items::new(alloc);
    for (n, sort) in of {
        terms.push(Term::Var { n: *n, sort: *sort })?;
    }
    Ok(terms)
}

/// A symbol at variables.
pub fn at_variables(alloc: Global, f: SymId, of: &[(u32, SortId)]) -> Result<Term, NoMemory>
    ensures { IfOk result (λ term. term ≡ App f (map (λ v. Var v.0 v.1) of.now)) }
{
    Ok(Term::App {
        f,
        args: variables(alloc, of)?,
    })
}

/// A symbol at variables and then a term.
pub fn at_last(alloc: Global, f: SymId, of: &[(u32, SortId)], last: Term) -> Result<Term, NoMemory>
    ensures { IfOk result (λ term. term ≡ App f (map (λ v. Var v.0 v.1) of.now ++ last ∷ [])) }
{
    let mut args = variables(alloc, of)?;
    args.push(last)?;
    Ok(Term::App { f, args })
}

/// A symbol at a term and then variables.
pub fn at_first(
    alloc: Global,
    f: SymId,
    first: Term,
    of: &[(u32, SortId)],
) -> Result<Term, NoMemory>
    ensures { IfOk result (λ term. term ≡ App f (first ∷ map (λ v. Var v.0 v.1) of.now)) }
{
    let mut args = Items::new(alloc);
    args.push(first)?;
    args.append(variables(alloc, of)?)?;
    Ok(Term::App { f, args })
}
