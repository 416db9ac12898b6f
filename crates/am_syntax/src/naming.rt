ghost use Rattle.std.specs.Prelude.{◌≡◌, [], map, slice_index_or, IfOk};
ghost use Rattle.am_syntax.specs.Naming.{naming_of, applied, named_term, named_atom, named_formula};

use crate::written::{WrittenAtom, WrittenFormula, WrittenTerm};
use am_term::{Atom, Formula, Name, NoMemory, SortId, SymId, Symbol, Term};
use sqlite_items::{Boxed, Items};
use std::alloc::Global;

/// The names of variables, inputs and symbols, each by its number.
#[derive(Clone, Copy)]
pub struct Naming<'a> {
    pub variables: &'a [(Name, SortId)],
    pub inputs: &'a [(Name, SortId)],
    pub symbols: &'a [Symbol],
}

/// The term as it is written: each variable, input and constant by its name alone, a symbol before its
/// arguments. Where a number has no name, the name is empty.
#[cycle(terms)]
#[tactic(auto, using(crate::proofs::NamingSteps::named_terms))]
pub fn named_term(alloc: Global, naming: &Naming, term: &Term) -> Result<WrittenTerm, NoMemory>
    ensures { IfOk result (λ t. t ≡ named_term (naming_of naming.now) term.now) }
{
    match term {
        Term::Var { n, .. } => alone_term(alloc, naming.variables, *n),
        Term::In { k } => alone_term(alloc, naming.inputs, *k),
        Term::App { f, args } => {
            let args = named_terms(alloc, naming, args.as_slice())?;
            applied_term(alloc, naming, *f, args)
        }
    }
}

#[cycle(terms)]
#[tactic(auto, using(crate::proofs::NamingSteps::named_terms))]
fn named_terms(
    alloc: Global,
    naming: &Naming,
    terms: &[Term],
) -> Result<Items<WrittenTerm>, NoMemory>
    ensures { IfOk result (λ ts. ts ≡ map (named_term (naming_of naming.now)) terms.now) }
{
    let mut made = Items::new(alloc);
    for term in terms {
        made.push(named_term(alloc, naming, term)?)?;
    }
    Ok(made)
}

// The name of this number, alone.
fn alone_term(
    alloc: Global,
    declared: &[(Name, SortId)],
    number: u32,
) -> Result<WrittenTerm, NoMemory>
    ensures { IfOk result (λ t. t ≡ WrittenTerm.Alone (slice_index_or (map (λ d. d.0) declared.now) number [])) }
{
    let name = declared_name(alloc, declared, number)?;
    Ok(WrittenTerm::Alone(name))
}

// The name of this symbol alone, or before its arguments.
fn applied_term(
    alloc: Global,
    naming: &Naming,
    id: SymId,
    args: Items<WrittenTerm>,
) -> Result<WrittenTerm, NoMemory>
    ensures { IfOk result (λ t. t ≡ applied (slice_index_or (naming_of naming.now).symbols id.0 []) args) }
{
    let name = symbol_name(alloc, naming, id)?;
    Ok(applied(name, args))
}

// The name alone, or before its arguments.
#[tactic(auto, using(crate::proofs::NamingSteps::applications))]
fn applied(name: Name, args: Items<WrittenTerm>) -> WrittenTerm
    ensures { result ≡ applied name args }
{
    if args.is_empty() {
        return WrittenTerm::Alone(name);
    }
    WrittenTerm::Headed { head: name, args }
}

// The name of this number.
#[tactic(auto, using(crate::proofs::NamingSteps::names))]
fn declared_name(alloc: Global, declared: &[(Name, SortId)], number: u32) -> Result<Name, NoMemory>
    ensures { IfOk result (λ n. n ≡ slice_index_or (map (λ d. d.0) declared.now) number []) }
{
    match sqlite_items::at(declared, number as usize) {
        Some(declaration) => Name::new(alloc, declaration.0.as_str()),
        None => Ok(Name::empty(alloc)),
    }
}

// The name of this symbol.
#[tactic(auto, using(crate::proofs::NamingSteps::names))]
fn symbol_name(alloc: Global, naming: &Naming, id: SymId) -> Result<Name, NoMemory>
    ensures { IfOk result (λ n. n ≡ slice_index_or (naming_of naming.now).symbols id.0 []) }
{
    match sqlite_items::at(naming.symbols, id.0 as usize) {
        Some(symbol) => Name::new(alloc, symbol.name.as_str()),
        None => Ok(Name::empty(alloc)),
    }
}

/// The atom as it is written.
#[tactic(auto, using(crate::proofs::NamingSteps::named_terms))]
pub fn named_atom(alloc: Global, naming: &Naming, atom: &Atom) -> Result<WrittenAtom, NoMemory>
    ensures { IfOk result (λ a. a ≡ named_atom (naming_of naming.now) atom.now) }
{
    match atom {
        Atom::Rel { r, args } => {
            let args = named_terms(alloc, naming, args.as_slice())?;
            named_relation(alloc, naming, *r, args)
        }
        Atom::Eq { left, right } => {
            let left = named_term(alloc, naming, left)?;
            named_equation(alloc, naming, left, right)
        }
    }
}

// The relation of this symbol and these arguments.
fn named_relation(
    alloc: Global,
    naming: &Naming,
    id: SymId,
    args: Items<WrittenTerm>,
) -> Result<WrittenAtom, NoMemory>
    ensures { IfOk result (λ a. a ≡ WrittenAtom.Relation (slice_index_or (naming_of naming.now).symbols id.0 []) args) }
{
    let name = symbol_name(alloc, naming, id)?;
    Ok(WrittenAtom::Relation { name, args })
}

// The equation of a term and this one as it is written.
fn named_equation(
    alloc: Global,
    naming: &Naming,
    left: WrittenTerm,
    right: &Term,
) -> Result<WrittenAtom, NoMemory>
    ensures { IfOk result (λ a. a ≡ WrittenAtom.Equation left (named_term (naming_of naming.now) right.now)) }
{
    let right = named_term(alloc, naming, right)?;
    Ok(WrittenAtom::Equation { left, right })
}

/// The formula as it is written.
#[cycle(formulas)]
#[tactic(auto, using(crate::proofs::NamingSteps::named_formulas))]
pub fn named_formula(
    alloc: Global,
    naming: &Naming,
    formula: &Formula,
) -> Result<WrittenFormula, NoMemory>
    ensures { IfOk result (λ f. f ≡ named_formula (naming_of naming.now) formula.now) }
{
    match formula {
        Formula::Atom(atom) => Ok(WrittenFormula::Atom(named_atom(alloc, naming, atom)?)),
        Formula::Not(inner) => Ok(WrittenFormula::Not(boxed_formula(alloc, naming, inner.get())?)),
        Formula::And(parts) => {
            let parts = named_formulas(alloc, naming, parts.as_slice())?;
            Ok(WrittenFormula::And(parts))
        }
        Formula::Or(parts) => {
            let parts = named_formulas(alloc, naming, parts.as_slice())?;
            Ok(WrittenFormula::Or(parts))
        }
        Formula::Implies(left, right) => {
            let left = boxed_formula(alloc, naming, left.get())?;
            implied_formula(alloc, naming, right.get(), left)
        }
        Formula::Iff(left, right) => {
            let left = boxed_formula(alloc, naming, left.get())?;
            equivalent_formula(alloc, naming, right.get(), left)
        }
    }
}

#[cycle(formulas)]
fn boxed_formula(
    alloc: Global,
    naming: &Naming,
    formula: &Formula,
) -> Result<Boxed<WrittenFormula>, NoMemory>
    ensures { IfOk result (λ f. f ≡ named_formula (naming_of naming.now) formula.now) }
{
    let formula = named_formula(alloc, naming, formula)?;
    Ok(Boxed::new(alloc, formula)?)
}

// The implication from a formula to this one as it is written.
#[cycle(formulas)]
fn implied_formula(
    alloc: Global,
    naming: &Naming,
    right: &Formula,
    left: Boxed<WrittenFormula>,
) -> Result<WrittenFormula, NoMemory>
    ensures { IfOk result (λ f. f ≡ WrittenFormula.Implies left (named_formula (naming_of naming.now) right.now)) }
{
    let right = boxed_formula(alloc, naming, right)?;
    Ok(WrittenFormula::Implies(left, right))
}

// The equivalence of a formula and this one as it is written.
#[cycle(formulas)]
fn equivalent_formula(
    alloc: Global,
    naming: &Naming,
    right: &Formula,
    left: Boxed<WrittenFormula>,
) -> Result<WrittenFormula, NoMemory>
    ensures { IfOk result (λ f. f ≡ WrittenFormula.Iff left (named_formula (naming_of naming.now) right.now)) }
{
    let right = boxed_formula(alloc, naming, right)?;
    Ok(WrittenFormula::Iff(left, right))
}

#[cycle(formulas)]
#[tactic(auto, using(crate::proofs::NamingSteps::named_formulas))]
fn named_formulas(
    alloc: Global,
    naming: &Naming,
    formulas: &[Formula],
) -> Result<Items<WrittenFormula>, NoMemory>
    ensures { IfOk result (λ fs. fs ≡ map (named_formula (naming_of naming.now)) formulas.now) }
{
    let mut made = Items::new(alloc);
    for formula in formulas {
        made.push(named_formula(alloc, naming, formula)?)?;
    }
    Ok(made)
}
