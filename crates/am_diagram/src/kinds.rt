ghost use Rattle.std.specs.Prelude.{◌≡◌, ◌+◌, IfOk, length, nat_lt};
ghost use Rattle.am_term.specs.NameLists.{is_among};
ghost use Rattle.am_diagram.specs.Listed.{entry_names};
ghost use Rattle.am_diagram.specs.Limits.{dummy_limit};
ghost use Rattle.am_diagram.specs.Faults.{used_names, is_taken, given_has, requirement_has, literal_has, has_unknown_name, is_twice, is_not_concrete, has_bad_fortran_name, has_reserved_name, is_over_limit, first_kind, head_kind, end_kind};

use crate::declaration::Declaration;
use crate::draft::Draft;
use crate::fault::DiagramKind;
use crate::looking::{is_abstract, is_reserved, is_symbol_name, is_unknown_sort};
use crate::scopes::{given_bound, requirement_bound};
use crate::tables::Tables;
use am_syntax::{Flaw, Scope, WrittenLiteral, atom_has};
use am_term::{Name, NoMemory, SortId, is_fortran_name};
use std::alloc::Global;

const DUMMY_LIMIT: usize = 18;

const OBJECT_LIMIT: usize = 32;

const GIVEN_LIMIT: usize = 256;

const REQUIREMENT_LIMIT: usize = 16;

/// The first kind of fault that the declaration has, in the order of `DiagramKind`.
#[tactic(auto, unfolding(crate::specs::Faults::first_kind, crate::specs::Faults::has_bad_sort, crate::specs::Faults::has_bad_arity, crate::specs::Faults::has_unbound))]
pub fn first_kind(
    alloc: Global,
    tables: &Tables,
    draft: &Draft,
    declaration: &Declaration,
) -> Result<Option<DiagramKind>, NoMemory>
    ensures { IfOk result (λ kind. kind ≡ first_kind tables.now.theory.now draft.now declaration.now) }
{
    if has_unknown_name(alloc, tables, draft, declaration)? {
        return Ok(Some(DiagramKind::UnknownName));
    }
    if is_twice(tables, draft, declaration) {
        return Ok(Some(DiagramKind::Twice));
    }
    if literal_has(alloc, Flaw::BadSort, tables, draft, declaration)? {
        return Ok(Some(DiagramKind::BadSort));
    }
    if literal_has(alloc, Flaw::BadArity, tables, draft, declaration)? {
        return Ok(Some(DiagramKind::BadArity));
    }
    if is_not_concrete(tables, declaration) {
        return Ok(Some(DiagramKind::NotConcrete));
    }
    if has_bad_fortran_name(declaration) {
        return Ok(Some(DiagramKind::BadFortranName));
    }
    if has_reserved_name(tables, declaration) {
        return Ok(Some(DiagramKind::ReservedName));
    }
    if literal_has(alloc, Flaw::Unbound, tables, draft, declaration)? {
        return Ok(Some(DiagramKind::Unbound));
    }
    if is_over_limit(draft, declaration) {
        return Ok(Some(DiagramKind::Limit));
    }
    Ok(None)
}

fn given_has(
    alloc: Global,
    tables: &Tables,
    draft: &Draft,
    flaw: Flaw,
    literal: &WrittenLiteral,
) -> Result<bool, NoMemory>
    ensures { IfOk result (λ has. has ≡ given_has tables.now.theory.now draft.now flaw literal.now) }
{
    let bound = given_bound(alloc, draft)?;
    let scope = Scope {
        sig: &tables.theory.sig,
        numbers: &tables.symbols,
        bound: &bound,
    };
    Ok(atom_has(&scope, flaw, &literal.atom))
}

fn requirement_has(
    alloc: Global,
    tables: &Tables,
    draft: &Draft,
    flaw: Flaw,
    literal: &WrittenLiteral,
) -> Result<bool, NoMemory>
    ensures { IfOk result (λ has. has ≡ requirement_has tables.now.theory.now draft.now flaw literal.now) }
{
    let bound = requirement_bound(alloc, draft)?;
    let scope = Scope {
        sig: &tables.theory.sig,
        numbers: &tables.symbols,
        bound: &bound,
    };
    Ok(atom_has(&scope, flaw, &literal.atom))
}

fn literal_has(
    alloc: Global,
    flaw: Flaw,
    tables: &Tables,
    draft: &Draft,
    declaration: &Declaration,
) -> Result<bool, NoMemory>
    ensures { IfOk result (λ has. has ≡ literal_has flaw tables.now.theory.now draft.now declaration.now) }
{
    match declaration {
        Declaration::Input { .. } => Ok(false),
        Declaration::Object { .. } => Ok(false),
        Declaration::Output { .. } => Ok(false),
        Declaration::Given(literal) => given_has(alloc, tables, draft, flaw, literal),
        Declaration::Require(literal) => requirement_has(alloc, tables, draft, flaw, literal),
    }
}

#[tactic(auto, unfolding(crate::specs::Faults::has_unknown_name))]
fn has_unknown_name(
    alloc: Global,
    tables: &Tables,
    draft: &Draft,
    declaration: &Declaration,
) -> Result<bool, NoMemory>
    ensures { IfOk result (λ has. has ≡ has_unknown_name tables.now.theory.now draft.now declaration.now) }
{
    match declaration {
        Declaration::Input { sort, .. } => Ok(is_unknown_sort(tables, sort)),
        Declaration::Object { sort, .. } => Ok(is_unknown_sort(tables, sort)),
        Declaration::Output { sort, .. } => Ok(is_unknown_sort(tables, sort)),
        Declaration::Given(literal) => {
            given_has(alloc, tables, draft, Flaw::UnknownName, literal)
        }
        Declaration::Require(literal) => {
            requirement_has(alloc, tables, draft, Flaw::UnknownName, literal)
        }
    }
}

#[tactic(auto, unfolding(crate::specs::Faults::is_twice))]
fn is_twice(tables: &Tables, draft: &Draft, declaration: &Declaration) -> bool
    ensures { result ≡ is_twice tables.now.theory.now draft.now declaration.now }
{
    match declaration {
        Declaration::Input { name, .. } => is_taken(tables, draft, name),
        Declaration::Object { name, .. } => is_taken(tables, draft, name),
        Declaration::Output { name, .. } => is_taken(tables, draft, name),
        Declaration::Given(_) => false,
        Declaration::Require(_) => false,
    }
}

fn is_taken(tables: &Tables, draft: &Draft, name: &Name) -> bool
    ensures { result ≡ is_taken tables.now.theory.now draft.now name.now }
{
    is_used(draft, name) || is_symbol_name(tables, name)
}

// Whether the name is the diagram's, or that of an input, object or output.
#[tactic(auto, using(crate::proofs::NameSteps::name_steps))]
fn is_used(draft: &Draft, name: &Name) -> bool
    ensures { result ≡ is_among name.now (used_names draft.now) }
{
    name.as_str() == draft.name.as_str()
        || has_name(draft.inputs.as_slice(), name)
        || has_name(draft.objects.as_slice(), name)
        || has_name(draft.outputs.as_slice(), name)
}

fn has_name(entries: &[(Name, SortId)], name: &Name) -> bool
    ensures { result ≡ is_among name.now (entry_names entries.now) }
{
    let mut rest = entries;
    while let [(other, _), behind @ ..] = rest {
        if name.as_str() == other.as_str() {
            return true;
        }
        rest = behind;
    }
    false
}

#[tactic(auto, unfolding(crate::specs::Faults::is_not_concrete))]
fn is_not_concrete(tables: &Tables, declaration: &Declaration) -> bool
    ensures { result ≡ is_not_concrete tables.now.theory.now declaration.now }
{
    match declaration {
        Declaration::Input { sort, .. } => is_abstract(tables, sort),
        Declaration::Object { .. } => false,
        Declaration::Output { sort, .. } => is_abstract(tables, sort),
        Declaration::Given(_) => false,
        Declaration::Require(_) => false,
    }
}

#[tactic(auto, unfolding(crate::specs::Faults::has_bad_fortran_name))]
fn has_bad_fortran_name(declaration: &Declaration) -> bool
    ensures { result ≡ has_bad_fortran_name declaration.now }
{
    match declaration {
        Declaration::Input { name, .. } => !is_fortran_name(name.as_str().as_bytes()),
        Declaration::Object { .. } => false,
        Declaration::Output { name, .. } => !is_fortran_name(name.as_str().as_bytes()),
        Declaration::Given(_) => false,
        Declaration::Require(_) => false,
    }
}

#[tactic(auto, unfolding(crate::specs::Faults::has_reserved_name))]
fn has_reserved_name(tables: &Tables, declaration: &Declaration) -> bool
    ensures { result ≡ has_reserved_name tables.now.theory.now declaration.now }
{
    match declaration {
        Declaration::Input { name, .. } => is_reserved(tables, name),
        Declaration::Object { .. } => false,
        Declaration::Output { name, .. } => is_reserved(tables, name),
        Declaration::Given(_) => false,
        Declaration::Require(_) => false,
    }
}

#[tactic(auto, unfolding(crate::specs::Faults::is_over_limit), using(crate::proofs::NameSteps::limit_steps))]
fn is_over_limit(draft: &Draft, declaration: &Declaration) -> bool
    ensures { result ≡ is_over_limit draft.now declaration.now }
{
    match declaration {
        Declaration::Input { .. } => has_all_dummies(draft),
        Declaration::Object { .. } => draft.objects.len() >= OBJECT_LIMIT,
        Declaration::Output { .. } => has_all_dummies(draft),
        Declaration::Given(_) => draft.givens.len() >= GIVEN_LIMIT,
        Declaration::Require(_) => draft.required.len() >= REQUIREMENT_LIMIT,
    }
}

// Whether one more input or output is too many.
#[tactic(auto, using(crate::proofs::NameSteps::limit_steps))]
fn has_all_dummies(draft: &Draft) -> bool
    ensures { result ≡ nat_lt dummy_limit (length draft.now.inputs + length draft.now.outputs + 1) }
{
    let inputs = draft.inputs.len();
    inputs >= DUMMY_LIMIT || draft.outputs.len() >= DUMMY_LIMIT - inputs
}

/// The first kind of fault that the diagram's own name has.
#[tactic(auto, unfolding(crate::specs::Faults::head_kind))]
pub fn head_kind(tables: &Tables, name: &Name) -> Option<DiagramKind>
    ensures { result ≡ head_kind tables.now.theory.now name.now }
{
    if !is_fortran_name(name.as_str().as_bytes()) {
        return Some(DiagramKind::BadFortranName);
    }
    if is_reserved(tables, name) {
        return Some(DiagramKind::ReservedName);
    }
    None
}

/// The first kind of fault at the end of the file: no output, no requirement.
#[tactic(auto, unfolding(crate::specs::Faults::end_kind))]
pub fn end_kind(draft: &Draft) -> Option<DiagramKind>
    ensures { result ≡ end_kind draft.now }
{
    if draft.outputs.is_empty() {
        return Some(DiagramKind::NoOutput);
    }
    if draft.required.is_empty() {
        return Some(DiagramKind::NoRequire);
    }
    None
}
