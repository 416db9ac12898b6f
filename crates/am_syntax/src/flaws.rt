ghost use Rattle.std.specs.Prelude.{◌≡◌, is_none};
ghost use Rattle.std.specs.List.{list_any};
ghost use Rattle.am_syntax.specs.Scopes.{scope_of, symbol_of, standing_of, argument_sorts_of};
ghost use Rattle.am_syntax.specs.Flaws.{has_unknown_name, has_bad_sort, has_bad_arity, has_unbound, term_has, relation_has, equation_has, are_apart, atom_has, formula_has, has_quantifier, written_sort, written_sorts, misfits, some_misfit, is_relation, is_function, is_lone_relation, is_lone_function, is_miscounted, is_unbound};

use crate::lookups::{standing, symbol, written_sort};
use crate::scope::{Flaw, Scope, Standing};
use crate::written::{WrittenAtom, WrittenFormula, WrittenTerm};
use am_term::{Name, SortId, akin, fits};

/// Whether the term has this flaw: the head of a list in it is no symbol; a relation stands as a term
/// in it, or a term's sort doesn't fit its place; a symbol in it has another number of arguments than
/// declared; or a name alone in it is nothing that may stand there. Takes no memory.
pub fn term_has(scope: &Scope, flaw: Flaw, term: &WrittenTerm) -> bool
    ensures { result ≡ term_has (scope_of scope.now) flaw term.now }
{
    match flaw {
        Flaw::UnknownName => has_unknown_name(scope, term),
        Flaw::BadSort => has_bad_sort(scope, term),
        Flaw::BadArity => has_bad_arity(scope, term),
        Flaw::Unbound => has_unbound(scope, term),
    }
}

#[tactic(auto, using(crate::proofs::FlawSteps::name_flaws))]
fn has_unknown_name(scope: &Scope, term: &WrittenTerm) -> bool
    ensures { result ≡ has_unknown_name (scope_of scope.now) term.now }
{
    match term {
        WrittenTerm::Alone(_) => false,
        WrittenTerm::Headed { head, args } => {
            if is_unknown(scope, head) {
                return true;
            }
            for arg in args.as_slice() {
                if has_unknown_name(scope, arg) {
                    return true;
                }
            }
            false
        }
    }
}

#[tactic(auto, using(crate::proofs::FlawSteps::sort_flaws))]
fn has_bad_sort(scope: &Scope, term: &WrittenTerm) -> bool
    ensures { result ≡ has_bad_sort (scope_of scope.now) term.now }
{
    match term {
        WrittenTerm::Alone(name) => is_lone_relation(scope, name),
        WrittenTerm::Headed { head, args } => {
            if is_relation(scope, head) {
                return true;
            }
            if has_misfit(scope, head, args.as_slice()) {
                return true;
            }
            for arg in args.as_slice() {
                if has_bad_sort(scope, arg) {
                    return true;
                }
            }
            false
        }
    }
}

#[tactic(auto, using(crate::proofs::FlawSteps::arity_flaws))]
fn has_bad_arity(scope: &Scope, term: &WrittenTerm) -> bool
    ensures { result ≡ has_bad_arity (scope_of scope.now) term.now }
{
    match term {
        WrittenTerm::Alone(name) => is_lone_function(scope, name),
        WrittenTerm::Headed { head, args } => {
            if is_miscounted(scope, head, args.len()) {
                return true;
            }
            for arg in args.as_slice() {
                if has_bad_arity(scope, arg) {
                    return true;
                }
            }
            false
        }
    }
}

#[tactic(auto, using(crate::proofs::FlawSteps::unbound_flaws))]
fn has_unbound(scope: &Scope, term: &WrittenTerm) -> bool
    ensures { result ≡ has_unbound (scope_of scope.now) term.now }
{
    match term {
        WrittenTerm::Alone(name) => is_unbound(scope, name),
        WrittenTerm::Headed { args, .. } => {
            for arg in args.as_slice() {
                if has_unbound(scope, arg) {
                    return true;
                }
            }
            false
        }
    }
}

// The name is no symbol's.
#[tactic(auto, using(crate::proofs::FlawSteps::symbol_steps))]
fn is_unknown(scope: &Scope, name: &Name) -> bool
    ensures { result ≡ is_none (symbol_of (scope_of scope.now) name.now) }
{
    match symbol(scope, name) {
        Some(_) => false,
        None => true,
    }
}

// The name is that of a symbol without a result.
#[tactic(auto, using(crate::proofs::FlawSteps::symbol_steps))]
fn is_relation(scope: &Scope, name: &Name) -> bool
    ensures { result ≡ is_relation (symbol_of (scope_of scope.now) name.now) }
{
    match symbol(scope, name) {
        Some(symbol) => symbol.result.is_none(),
        None => false,
    }
}

// The name is that of a symbol with a result.
#[tactic(auto, using(crate::proofs::FlawSteps::symbol_steps))]
fn is_function(scope: &Scope, name: &Name) -> bool
    ensures { result ≡ is_function (symbol_of (scope_of scope.now) name.now) }
{
    match symbol(scope, name) {
        Some(symbol) => !symbol.result.is_none(),
        None => false,
    }
}

// The name is that of a symbol with another number of arguments.
#[tactic(auto, using(crate::proofs::FlawSteps::symbol_steps))]
fn is_miscounted(scope: &Scope, name: &Name, count: usize) -> bool
    ensures { result ≡ is_miscounted (symbol_of (scope_of scope.now) name.now) count }
{
    match symbol(scope, name) {
        Some(symbol) => symbol.args.len() != count,
        None => false,
    }
}

fn is_lone_relation(scope: &Scope, name: &Name) -> bool
    ensures { result ≡ is_lone_relation (scope_of scope.now)
        (standing_of name.now (scope_of scope.now).bound) name.now }
{
    match standing(scope, name) {
        Some(_) => false,
        None => is_relation(scope, name),
    }
}

fn is_lone_function(scope: &Scope, name: &Name) -> bool
    ensures { result ≡ is_lone_function (scope_of scope.now)
        (standing_of name.now (scope_of scope.now).bound) name.now }
{
    match standing(scope, name) {
        Some(_) => false,
        None => is_miscounted(scope, name, 0),
    }
}

fn is_unbound(scope: &Scope, name: &Name) -> bool
    ensures { result ≡ is_unbound (standing_of name.now (scope_of scope.now).bound)
        (symbol_of (scope_of scope.now) name.now) }
{
    match standing(scope, name) {
        Some(Standing::Variable { .. }) => false,
        Some(Standing::Input { .. }) => false,
        Some(Standing::Barred) => true,
        None => is_unknown(scope, name),
    }
}

// A term's sort doesn't fit its place among the arguments of the symbol of this name.
#[tactic(auto, using(crate::proofs::FlawSteps::sort_steps))]
fn has_misfit(scope: &Scope, name: &Name, terms: &[WrittenTerm]) -> bool
    ensures { result ≡ some_misfit (scope_of scope.now).parents (written_sorts (scope_of scope.now) terms.now)
        (argument_sorts_of (symbol_of (scope_of scope.now) name.now)) }
{
    match symbol(scope, name) {
        Some(symbol) => some_misfit(scope, terms, symbol.args.as_slice()),
        None => false,
    }
}

// A term's sort doesn't fit its place; only the places that both have are compared.
#[tactic(auto, using(crate::proofs::FlawSteps::sort_steps))]
fn some_misfit(scope: &Scope, terms: &[WrittenTerm], places: &[SortId]) -> bool
    ensures { result ≡ some_misfit (scope_of scope.now).parents
        (written_sorts (scope_of scope.now) terms.now) places.now }
{
    let count = terms.len().min(places.len());
    for i in 0..count {
        if misfits(scope, &terms[i], places[i]) {
            return true;
        }
    }
    false
}

// The term has a sort, and that doesn't fit the place.
#[tactic(auto, using(crate::proofs::FlawSteps::sort_steps))]
fn misfits(scope: &Scope, term: &WrittenTerm, place: SortId) -> bool
    ensures { result ≡ misfits (scope_of scope.now).parents (written_sort (scope_of scope.now) term.now) place }
{
    match written_sort(scope, term) {
        Some(sort) => !fits(scope.sig, sort, place),
        None => false,
    }
}

/// Whether the atom has this flaw, in one of its terms or in itself: its name is no symbol; it is a
/// function, a term's sort doesn't fit its place, or the sorts of the sides of an equation aren't akin;
/// or it has another number of arguments than declared. Takes no memory.
#[tactic(auto, using(crate::proofs::FlawSteps::atom_steps))]
pub fn atom_has(scope: &Scope, flaw: Flaw, atom: &WrittenAtom) -> bool
    ensures { result ≡ atom_has (scope_of scope.now) flaw atom.now }
{
    match atom {
        WrittenAtom::Equation { left, right } => {
            equation_has(scope, flaw, left, right)
                || (term_has(scope, flaw, left) || term_has(scope, flaw, right))
        }
        WrittenAtom::Relation { name, args } => {
            relation_has(scope, flaw, name, args.as_slice())
                || some_term_has(scope, flaw, args.as_slice())
        }
    }
}

// Whether the relation has the flaw, beside its arguments.
fn relation_has(scope: &Scope, flaw: Flaw, name: &Name, args: &[WrittenTerm]) -> bool
    ensures { result ≡ relation_has (scope_of scope.now) flaw name.now args.now }
{
    match flaw {
        Flaw::UnknownName => is_unknown(scope, name),
        Flaw::BadSort => is_function(scope, name) || has_misfit(scope, name, args),
        Flaw::BadArity => is_miscounted(scope, name, args.len()),
        Flaw::Unbound => false,
    }
}

// Whether the equation has the flaw, beside its sides.
fn equation_has(scope: &Scope, flaw: Flaw, left: &WrittenTerm, right: &WrittenTerm) -> bool
    ensures { result ≡ equation_has (scope_of scope.now) flaw left.now right.now }
{
    match flaw {
        Flaw::UnknownName => false,
        Flaw::BadSort => are_apart(scope, left, right),
        Flaw::BadArity => false,
        Flaw::Unbound => false,
    }
}

// Both terms have sorts, and these aren't akin.
#[tactic(auto, using(crate::proofs::FlawSteps::sort_steps))]
fn are_apart(scope: &Scope, left: &WrittenTerm, right: &WrittenTerm) -> bool
    ensures { result ≡ are_apart (scope_of scope.now).parents (written_sort (scope_of scope.now) left.now)
        (written_sort (scope_of scope.now) right.now) }
{
    let Some(first) = written_sort(scope, left) else {
        return false;
    };
    match written_sort(scope, right) {
        Some(second) => !akin(scope.sig, first, second),
        None => false,
    }
}

#[tactic(auto, using(crate::proofs::FlawSteps::atom_steps))]
fn some_term_has(scope: &Scope, flaw: Flaw, terms: &[WrittenTerm]) -> bool
    ensures { result ≡ list_any (term_has (scope_of scope.now) flaw) terms.now }
{
    for term in terms {
        if term_has(scope, flaw, term) {
            return true;
        }
    }
    false
}

/// Whether some atom of the formula has the flaw; in a quantifier nothing is tested. Takes no memory.
#[cycle(atoms)]
#[tactic(auto, using(crate::proofs::FormulaSteps::formula_flaws))]
pub fn formula_has(scope: &Scope, flaw: Flaw, formula: &WrittenFormula) -> bool
    ensures { result ≡ formula_has (scope_of scope.now) flaw formula.now }
{
    match formula {
        WrittenFormula::Atom(atom) => atom_has(scope, flaw, atom),
        WrittenFormula::Not(inner) => formula_has(scope, flaw, inner.get()),
        WrittenFormula::And(parts) => some_formula_has(scope, flaw, parts.as_slice()),
        WrittenFormula::Or(parts) => some_formula_has(scope, flaw, parts.as_slice()),
        WrittenFormula::Implies(left, right) => {
            formula_has(scope, flaw, left.get()) || formula_has(scope, flaw, right.get())
        }
        WrittenFormula::Iff(left, right) => {
            formula_has(scope, flaw, left.get()) || formula_has(scope, flaw, right.get())
        }
        WrittenFormula::Quantified => false,
    }
}

#[cycle(atoms)]
#[tactic(auto, using(crate::proofs::FormulaSteps::formula_flaws))]
fn some_formula_has(scope: &Scope, flaw: Flaw, formulas: &[WrittenFormula]) -> bool
    ensures { result ≡ list_any (formula_has (scope_of scope.now) flaw) formulas.now }
{
    for formula in formulas {
        if formula_has(scope, flaw, formula) {
            return true;
        }
    }
    false
}

/// Whether a quantifier stands inside the formula. Takes no memory.
#[cycle(quantifiers)]
#[tactic(auto, using(crate::proofs::FormulaSteps::quantifiers))]
pub fn has_quantifier(formula: &WrittenFormula) -> bool
    ensures { result ≡ has_quantifier formula.now }
{
    match formula {
        WrittenFormula::Atom(_) => false,
        WrittenFormula::Not(inner) => has_quantifier(inner.get()),
        WrittenFormula::And(parts) => some_has_quantifier(parts.as_slice()),
        WrittenFormula::Or(parts) => some_has_quantifier(parts.as_slice()),
        WrittenFormula::Implies(left, right) => {
            has_quantifier(left.get()) || has_quantifier(right.get())
        }
        WrittenFormula::Iff(left, right) => {
            has_quantifier(left.get()) || has_quantifier(right.get())
        }
        WrittenFormula::Quantified => true,
    }
}

#[cycle(quantifiers)]
#[tactic(auto, using(crate::proofs::FormulaSteps::quantifiers))]
fn some_has_quantifier(formulas: &[WrittenFormula]) -> bool
    ensures { result ≡ list_any has_quantifier formulas.now }
{
    for formula in formulas {
        if has_quantifier(formula) {
            return true;
        }
    }
    false
}
