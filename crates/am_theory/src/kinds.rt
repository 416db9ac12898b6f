ghost use Rattle.std.specs.Prelude.{◌≡◌, IfOk, map, length, is_none};
ghost use Rattle.std.specs.List.{list_any};
ghost use Rattle.am_term.specs.NameLists.{are_distinct};
ghost use Rattle.am_clause.specs.declared.clause.Clause.{Clause};
ghost use Rattle.am_syntax.specs.Scopes.{scope_of};
ghost use Rattle.am_theory.specs.declared.declaration.Typed.{Typed};
ghost use Rattle.am_theory.specs.AxiomScope.{variables_in, scope_in};
ghost use Rattle.am_theory.specs.Contents.{contents, bound_from, sort_number};
ghost use Rattle.am_theory.specs.Faults.{is_early, names_in, has_unknown_name, is_unknown_sort, is_symbol_name, is_taken, same_value, is_akin_to, sort_of_symbol, is_literal_of, is_twice, has_bad_sort, has_bad_arity, has_unbound, quantifies, first_kind};

use crate::declaration::{Declaration, Typed};
use crate::fault::TheoryKind;
use crate::fortran::{clashes, has_bad_fortran_name};
use crate::limits::is_over_limit;
use crate::reps::{is_badly_represented, lacks_copy};
use crate::tables::Tables;
use crate::theory::{LitValue, LiteralDecl};
use am_syntax::{BoundTable, Flaw, NameTable, Scope, Standing, formula_has, has_quantifier};
use am_term::{Name, NoMemory, SortId, SymId, akin};
use sqlite_items::Items;
use std::alloc::Global;

/// The first kind of fault that the declaration has, in the order of `TheoryKind`.
#[tactic(auto, unfolding(crate::specs::Faults::first_kind))]
pub fn first_kind(
    alloc: Global,
    tables: &Tables,
    declaration: &Declaration,
) -> Result<Option<TheoryKind>, NoMemory>
    ensures { IfOk result (λ kind. kind ≡ first_kind (contents tables.now.theory) declaration.now) }
{
    if is_early(tables.theory.version, declaration) {
        return Ok(Some(TheoryKind::BadHead));
    }
    let bound = bound_in(alloc, tables, declaration)?;
    let scope = Scope {
        sig: &tables.theory.sig,
        numbers: &tables.symbols,
        bound: &bound,
    };
    if has_unknown_name(tables, &scope, declaration) {
        return Ok(Some(TheoryKind::UnknownName));
    }
    if is_twice(alloc, tables, declaration)? {
        return Ok(Some(TheoryKind::Twice));
    }
    if has_bad_sort(tables, &scope, declaration) {
        return Ok(Some(TheoryKind::BadSort));
    }
    if has_bad_arity(tables, &scope, declaration) {
        return Ok(Some(TheoryKind::BadArity));
    }
    if is_badly_represented(tables, declaration) {
        return Ok(Some(TheoryKind::BadRep));
    }
    if lacks_copy(declaration) {
        return Ok(Some(TheoryKind::NoCopy));
    }
    if has_bad_fortran_name(declaration) {
        return Ok(Some(TheoryKind::BadFortranName));
    }
    if clashes(tables, declaration) {
        return Ok(Some(TheoryKind::NameClash));
    }
    if has_unbound(tables, &scope, declaration) {
        return Ok(Some(TheoryKind::Unbound));
    }
    if quantifies(tables, declaration) {
        return Ok(Some(TheoryKind::Quantifier));
    }
    if is_over_limit(alloc, tables, &scope, declaration)? {
        return Ok(Some(TheoryKind::Limit));
    }
    Ok(None)
}

// What the variables of the declaration stand for.
fn bound_in(
    alloc: Global,
    tables: &Tables,
    declaration: &Declaration,
) -> Result<BoundTable, NoMemory>
    ensures { IfOk result (λ bs. bs.entries ≡ bound_from (contents tables.now.theory) 0
        (variables_in declaration.now)) }
{
    match declaration {
        Declaration::Axiom { variables, .. } => bound_from(alloc, tables, variables.as_slice()),
        _ => Ok(BoundTable::new(alloc)),
    }
}

/// The variables of an axiom, numbered from 0; no memory too where a number would exceed 32 bits.
pub fn bound_from(
    alloc: Global,
    tables: &Tables,
    variables: &[Typed],
) -> Result<BoundTable, NoMemory>
    ensures { IfOk result (λ bs. bs.entries ≡ bound_from (contents tables.now.theory) 0 variables.now) }
{
    let mut made = BoundTable::new(alloc);
    let mut number = 0u32;
    let mut rest = variables;
    while let [variable, behind @ ..] = rest {
        let sort = tables.sort_number(&variable.sort);
        let standing = Standing::Variable { n: number, sort };
        made = made.with(alloc, &variable.name, standing)?;
        number = number.checked_add(1).ok_or(NoMemory)?;
        rest = behind;
    }
    Ok(made)
}

// Whether the declaration is none of a file of this version.
fn is_early(version: u32, declaration: &Declaration) -> bool
    ensures { result ≡ is_early version declaration.now }
{
    match declaration {
        Declaration::Subsort { .. } => version < 2,
        _ => false,
    }
}

#[tactic(auto, unfolding(crate::specs::Faults::has_unknown_name), using(crate::proofs::KindSteps::kind_steps))]
fn has_unknown_name(tables: &Tables, scope: &Scope, declaration: &Declaration) -> bool
    requires { scope_of scope.now ≡ scope_in (contents tables.now.theory) declaration.now }
    ensures { result ≡ has_unknown_name (contents tables.now.theory) declaration.now }
{
    match declaration {
        Declaration::Sort { .. } => false,
        Declaration::Subsort { sort, .. } => tables.is_unknown_sort(sort),
        Declaration::Function { args, result, .. } => {
            has_unknown_sort(tables, args.as_slice()) || tables.is_unknown_sort(result)
        }
        Declaration::Relation { args, .. } => has_unknown_sort(tables, args.as_slice()),
        Declaration::Literal { sort, .. } => tables.is_unknown_sort(sort),
        Declaration::Routine {
            inputs,
            outputs,
            ..
        } => {
            has_unknown_sort(tables, inputs.as_slice())
                || has_unknown_typed(tables, outputs.as_slice())
        }
        Declaration::Value { args, result, .. } => {
            has_unknown_sort(tables, args.as_slice()) || tables.is_unknown_sort(result)
        }
        Declaration::Axiom { variables, formula } => {
            has_unknown_typed(tables, variables.as_slice())
                || formula_has(scope, Flaw::UnknownName, formula)
        }
    }
}

fn has_unknown_sort(tables: &Tables, names: &[Name]) -> bool
    ensures { result ≡ list_any (is_unknown_sort (contents tables.now.theory)) names.now }
{
    names.iter().any(|name| tables.is_unknown_sort(name))
}

fn has_unknown_typed(tables: &Tables, typed: &[Typed]) -> bool
    ensures { result ≡ list_any (λ (v : Typed). is_unknown_sort (contents tables.now.theory) v.sort) typed.now }
{
    typed.iter().any(|one| tables.is_unknown_sort(&one.sort))
}

#[tactic(auto, unfolding(crate::specs::Faults::is_twice), using(crate::proofs::KindSteps::kind_steps))]
fn is_twice(alloc: Global, tables: &Tables, declaration: &Declaration) -> Result<bool, NoMemory>
    ensures { IfOk result (λ twice. twice ≡ is_twice (contents tables.now.theory) declaration.now) }
{
    match declaration {
        Declaration::Sort { name, .. } => Ok(tables.sorts.contains(name)),
        Declaration::Subsort { name, .. } => Ok(tables.sorts.contains(name)),
        Declaration::Function { name, .. } => Ok(tables.is_taken(name)),
        Declaration::Relation { name, .. } => Ok(tables.is_taken(name)),
        Declaration::Literal { name, sort, value } => {
            Ok(tables.is_taken(name) || has_literal(tables, tables.sort_number(sort), value))
        }
        Declaration::Routine { outputs, .. } => {
            if has_taken(tables, outputs.as_slice()) {
                return Ok(true);
            }
            Ok(!are_distinct(alloc, outputs.as_slice())?)
        }
        Declaration::Value { name, .. } => Ok(tables.is_taken(name)),
        Declaration::Axiom { variables, .. } => {
            if has_symbol(tables, variables.as_slice()) {
                return Ok(true);
            }
            Ok(!are_distinct(alloc, variables.as_slice())?)
        }
    }
}

fn has_taken(tables: &Tables, typed: &[Typed]) -> bool
    ensures { result ≡ list_any (λ (v : Typed). is_taken (contents tables.now.theory) v.name) typed.now }
{
    typed.iter().any(|one| tables.is_taken(&one.name))
}

fn has_symbol(tables: &Tables, typed: &[Typed]) -> bool
    ensures { result ≡ list_any (λ (v : Typed). is_symbol_name (contents tables.now.theory) v.name) typed.now }
{
    typed.iter().any(|one| tables.is_symbol_name(&one.name))
}

// Whether no name stands twice, by a map.
fn are_distinct(alloc: Global, typed: &[Typed]) -> Result<bool, NoMemory>
    ensures { IfOk result (λ distinct. distinct ≡ are_distinct (names_in typed.now)) }
{
    let mut seen = NameTable::new(alloc);
    for one in typed {
        if seen.contains(&one.name) {
            return Ok(false);
        }
        seen = seen.including(alloc, &one.name)?;
    }
    Ok(true)
}

fn has_literal(tables: &Tables, sort: SortId, value: &LitValue) -> bool
    ensures { result ≡ list_any (is_literal_of (contents tables.now.theory) sort value.now)
        (contents tables.now.theory).literals }
{
    let literals = tables.theory.literals.as_slice();
    literals
        .iter()
        .any(|literal| is_literal_of(tables, sort, value, literal))
}

fn is_literal_of(tables: &Tables, sort: SortId, value: &LitValue, literal: &LiteralDecl) -> bool
    ensures { result ≡ is_literal_of (contents tables.now.theory) sort value.now literal.now }
{
    same_value(value, &literal.value) && is_akin_to(tables, sort, literal.symbol)
}

fn same_value(value: &LitValue, other: &LitValue) -> bool
    ensures { result ≡ same_value value.now other.now }
{
    match (value, other) {
        (LitValue::Int(number), LitValue::Int(second)) => *number == *second,
        (LitValue::Text(text), LitValue::Text(second)) => text.as_str() == second.as_str(),
        (LitValue::Int(_), LitValue::Text(_)) => false,
        (LitValue::Text(_), LitValue::Int(_)) => false,
    }
}

// Whether the sort is akin to that of the symbol.
#[tactic(auto, using(crate::proofs::KindSteps::kind_steps))]
fn is_akin_to(tables: &Tables, sort: SortId, symbol: SymId) -> bool
    ensures { result ≡ is_akin_to (contents tables.now.theory).parents sort
        (sort_of_symbol (contents tables.now.theory) symbol) }
{
    match tables.theory.sig.symbols.get(symbol.0 as usize) {
        Some(symbol) => match symbol.result {
            Some(other) => akin(&tables.theory.sig, sort, other),
            None => false,
        },
        None => false,
    }
}

#[tactic(auto, unfolding(crate::specs::Faults::has_bad_sort))]
fn has_bad_sort(tables: &Tables, scope: &Scope, declaration: &Declaration) -> bool
    requires { scope_of scope.now ≡ scope_in (contents tables.now.theory) declaration.now }
    ensures { result ≡ has_bad_sort (contents tables.now.theory) declaration.now }
{
    match declaration {
        Declaration::Axiom { formula, .. } => formula_has(scope, Flaw::BadSort, formula),
        _ => false,
    }
}

#[tactic(auto, unfolding(crate::specs::Faults::has_bad_arity))]
fn has_bad_arity(tables: &Tables, scope: &Scope, declaration: &Declaration) -> bool
    requires { scope_of scope.now ≡ scope_in (contents tables.now.theory) declaration.now }
    ensures { result ≡ has_bad_arity (contents tables.now.theory) declaration.now }
{
    match declaration {
        Declaration::Axiom { formula, .. } => formula_has(scope, Flaw::BadArity, formula),
        _ => false,
    }
}

#[tactic(auto, unfolding(crate::specs::Faults::has_unbound))]
fn has_unbound(tables: &Tables, scope: &Scope, declaration: &Declaration) -> bool
    requires { scope_of scope.now ≡ scope_in (contents tables.now.theory) declaration.now }
    ensures { result ≡ has_unbound (contents tables.now.theory) declaration.now }
{
    match declaration {
        Declaration::Axiom { formula, .. } => formula_has(scope, Flaw::Unbound, formula),
        _ => false,
    }
}

#[tactic(auto, unfolding(crate::specs::Faults::quantifies))]
fn quantifies(tables: &Tables, declaration: &Declaration) -> bool
    ensures { result ≡ quantifies (contents tables.now.theory) declaration.now }
{
    match declaration {
        Declaration::Axiom { formula, .. } => has_quantifier(formula),
        _ => false,
    }
}
