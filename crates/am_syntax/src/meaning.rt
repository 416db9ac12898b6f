ghost use Rattle.std.specs.Prelude.{◌≡◌, map, IfOk};
ghost use Rattle.am_syntax.specs.Scopes.{scope_of, standing_of};
ghost use Rattle.am_syntax.specs.Meaning.{named_symbol, alone_term, term_meaning, atom_meaning, literal_meaning, formula_meaning};

use crate::lookups::standing;
use crate::scope::{Scope, Standing};
use crate::written::{WrittenAtom, WrittenFormula, WrittenLiteral, WrittenTerm};
use am_term::{Atom, Formula, Literal, Name, NoMemory, SymId, Term};
use sqlite_items::{Boxed, Items};
use std::alloc::Global;

/// The term that this one stands for: a name alone is the variable or the input of this name, else the
/// constant; a head is the symbol of its name. Where the term has a flaw, any term.
#[cycle(terms)]
#[tactic(auto, using(crate::proofs::MeaningSteps::term_meanings))]
pub fn term_meaning(alloc: Global, scope: &Scope, term: &WrittenTerm) -> Result<Term, NoMemory>
    ensures { IfOk result (λ t. t ≡ term_meaning (scope_of scope.now) term.now) }
{
    match term {
        WrittenTerm::Alone(name) => Ok(alone_term(alloc, scope, name)),
        WrittenTerm::Headed { head, args } => {
            let args = term_meanings(alloc, scope, args.as_slice())?;
            Ok(Term::App {
                f: named_symbol(scope, head),
                args,
            })
        }
    }
}

#[cycle(terms)]
#[tactic(auto, using(crate::proofs::MeaningSteps::term_meanings))]
fn term_meanings(
    alloc: Global,
    scope: &Scope,
    terms: &[WrittenTerm],
) -> Result<Items<Term>, NoMemory>
    ensures { IfOk result (λ ts. ts ≡ map (term_meaning (scope_of scope.now)) terms.now) }
{
    let mut made = Items::new(alloc);
    for term in terms {
        made.push(term_meaning(alloc, scope, term)?)?;
    }
    Ok(made)
}

// What a name alone stands for.
fn alone_term(alloc: Global, scope: &Scope, name: &Name) -> Term
    ensures { result ≡ alone_term (scope_of scope.now) (standing_of name.now (scope_of scope.now).bound) name.now }
{
    match standing(scope, name) {
        Some(Standing::Variable { n, sort }) => Term::Var { n, sort },
        Some(Standing::Input { k, .. }) => Term::In { k },
        Some(Standing::Barred) => Term::In { k: 0 },
        None => Term::App {
            f: named_symbol(scope, name),
            args: Items::new(alloc),
        },
    }
}

// The symbol of this name.
fn named_symbol(scope: &Scope, name: &Name) -> SymId
    ensures { result ≡ named_symbol (scope_of scope.now) name.now }
{
    match scope.numbers.position(name) {
        Some(number) => SymId(number),
        None => SymId(0),
    }
}

/// The atom that this one stands for. Where it has a flaw, any atom.
#[tactic(auto, using(crate::proofs::MeaningSteps::term_meanings))]
pub fn atom_meaning(alloc: Global, scope: &Scope, atom: &WrittenAtom) -> Result<Atom, NoMemory>
    ensures { IfOk result (λ a. a ≡ atom_meaning (scope_of scope.now) atom.now) }
{
    match atom {
        WrittenAtom::Equation { left, right } => {
            let left = term_meaning(alloc, scope, left)?;
            equated_meaning(alloc, scope, left, right)
        }
        WrittenAtom::Relation { name, args } => {
            let args = term_meanings(alloc, scope, args.as_slice())?;
            Ok(Atom::Rel {
                r: named_symbol(scope, name),
                args,
            })
        }
    }
}

// The equation of a term and what this one stands for.
fn equated_meaning(
    alloc: Global,
    scope: &Scope,
    left: Term,
    right: &WrittenTerm,
) -> Result<Atom, NoMemory>
    ensures { IfOk result (λ a. a ≡ Atom.Eq left (term_meaning (scope_of scope.now) right.now)) }
{
    let right = term_meaning(alloc, scope, right)?;
    Ok(Atom::Eq { left, right })
}

/// The literal that this one stands for. Where its atom has a flaw, any literal.
pub fn literal_meaning(
    alloc: Global,
    scope: &Scope,
    literal: &WrittenLiteral,
) -> Result<Literal, NoMemory>
    ensures { IfOk result (λ l. l ≡ literal_meaning (scope_of scope.now) literal.now) }
{
    let atom = atom_meaning(alloc, scope, &literal.atom)?;
    Ok(Literal {
        positive: literal.positive,
        atom,
    })
}

/// The formula that this one stands for. Where it has a flaw or a quantifier, any formula.
#[cycle(formulas)]
#[tactic(auto, using(crate::proofs::MeaningSteps::formula_meanings))]
pub fn formula_meaning(
    alloc: Global,
    scope: &Scope,
    formula: &WrittenFormula,
) -> Result<Formula, NoMemory>
    ensures { IfOk result (λ f. f ≡ formula_meaning (scope_of scope.now) formula.now) }
{
    match formula {
        WrittenFormula::Atom(atom) => Ok(Formula::Atom(atom_meaning(alloc, scope, atom)?)),
        WrittenFormula::Not(inner) => Ok(Formula::Not(boxed_meaning(alloc, scope, inner.get())?)),
        WrittenFormula::And(parts) => {
            let parts = formula_meanings(alloc, scope, parts.as_slice())?;
            Ok(Formula::And(parts))
        }
        WrittenFormula::Or(parts) => {
            let parts = formula_meanings(alloc, scope, parts.as_slice())?;
            Ok(Formula::Or(parts))
        }
        WrittenFormula::Implies(left, right) => {
            let left = boxed_meaning(alloc, scope, left.get())?;
            implied_meaning(alloc, scope, right.get(), left)
        }
        WrittenFormula::Iff(left, right) => {
            let left = boxed_meaning(alloc, scope, left.get())?;
            equivalent_meaning(alloc, scope, right.get(), left)
        }
        WrittenFormula::Quantified => Ok(Formula::And(Items::new(alloc))),
    }
}

#[cycle(formulas)]
fn boxed_meaning(
    alloc: Global,
    scope: &Scope,
    formula: &WrittenFormula,
) -> Result<Boxed<Formula>, NoMemory>
    ensures { IfOk result (λ f. f ≡ formula_meaning (scope_of scope.now) formula.now) }
{
    let formula = formula_meaning(alloc, scope, formula)?;
    Ok(Boxed::new(alloc, formula)?)
}

// The implication from a formula to what this one stands for.
#[cycle(formulas)]
fn implied_meaning(
    alloc: Global,
    scope: &Scope,
    right: &WrittenFormula,
    left: Boxed<Formula>,
) -> Result<Formula, NoMemory>
    ensures { IfOk result (λ f. f ≡ Formula.Implies left (formula_meaning (scope_of scope.now) right.now)) }
{
    let right = boxed_meaning(alloc, scope, right)?;
    Ok(Formula::Implies(left, right))
}

// The equivalence of a formula and what this one stands for.
#[cycle(formulas)]
fn equivalent_meaning(
    alloc: Global,
    scope: &Scope,
    right: &WrittenFormula,
    left: Boxed<Formula>,
) -> Result<Formula, NoMemory>
    ensures { IfOk result (λ f. f ≡ Formula.Iff left (formula_meaning (scope_of scope.now) right.now)) }
{
    let right = boxed_meaning(alloc, scope, right)?;
    Ok(Formula::Iff(left, right))
}

#[cycle(formulas)]
#[tactic(auto, using(crate::proofs::MeaningSteps::formula_meanings))]
fn formula_meanings(
    alloc: Global,
    scope: &Scope,
    formulas: &[WrittenFormula],
) -> Result<Items<Formula>, NoMemory>
    ensures { IfOk result (λ fs. fs ≡ map (formula_meaning (scope_of scope.now)) formulas.now) }
{
    let mut made = Items::new(alloc);
    for formula in formulas {
        made.push(formula_meaning(alloc, scope, formula)?)?;
    }
    Ok(made)
}
