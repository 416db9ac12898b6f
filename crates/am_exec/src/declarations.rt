ghost use Rattle.std.specs.Prelude.{◌≡◌, ◌<◌, IfOk, IfSome, ◌++◌, [], length, take, drop, slice_get, option_copied};
ghost use Rattle.am_diagram.specs.Listed.{entry_names};
ghost use Rattle.am_exec.specs.Lawful.{dummies_of, further as declared_behind};
ghost use Rattle.am_exec.specs.ItemFaults.{same_names as are_same_names, is_bad_head as is_head_bad, is_local as is_lawful_local, is_declared_function as is_lawful_function, declares as is_declaring, is_bad_declaration as is_declaration_bad, declared_names, lacks_dummy as is_dummy_lacking, declared_type as type_declared, may_be_set as is_settable};
ghost use Rattle.am_exec.specs.Places.{type_at as type_declared_at};
ghost use Rattle.am_exec.specs.Terms.{bad_declaration as first_bad};

use crate::lookups::{is_listed, is_one_of};
use crate::name_index::NameIndex;
use crate::scene::Scene;
use crate::types::{have_one_type, is_text_of_any_length, type_of_dummy, type_of_function};
use am_diagram::Diagram;
use am_fortran::{Decl, FortranType, Unit};
use am_term::{Name, NoMemory, SortId};
use am_theory::{Theory, function_named, is_fortran_name, result_sort};
use std::alloc::Global;

/// Whether the unit's name isn't the diagram's, or its dummies aren't the inputs and then the outputs.
/// Takes no memory, as all here that is given no allocator.
#[tactic(auto, using(crate::proofs::Dummies::heads))]
pub fn is_bad_head(diagram: &Diagram, unit: &Unit) -> bool
    ensures { result ≡ is_head_bad diagram.now unit.now }
{
    let count = diagram.inputs.len();
    let dummies = unit.dummies.as_slice();
    if dummies.len() < count {
        return true;
    }
    let (front, behind) = dummies.split_at(count);
    !(unit.name.as_str() == diagram.name.as_str()
        && same_names(front, diagram.inputs.as_slice())
        && same_names(behind, diagram.outputs.as_slice()))
}

fn same_names(names: &[Name], list: &[(Name, SortId)]) -> bool
    ensures { result ≡ are_same_names names.now (entry_names list.now) }
{
    let mut left = names;
    let mut rest = list;
    while let [name, further @ ..] = left {
        match rest {
            [] => return false,
            [entry, behind @ ..] => {
                if name.as_str() != entry.0.as_str() {
                    return false;
                }
                left = further;
                rest = behind;
            }
        }
    }
    rest.is_empty()
}

/// How many declarations stand before the first bad one, if one is bad.
#[tactic(auto, using(crate::proofs::Dummies::declaring))]
pub fn bad_declaration(
    alloc: Global,
    theory: &Theory,
    diagram: &Diagram,
    unit: &Unit,
) -> Result<Option<usize>, NoMemory>
    ensures value { IfOk result (λ k. k ≡ first_bad theory.now diagram.now unit.now [] unit.now.declarations) }
    ensures within { IfOk result (λ k. IfSome k (λ at. at < length unit.now.declarations)) }
{
    let mut names = NameIndex::new(alloc);
    let declarations = unit.declarations.as_slice();
    for i in 0..declarations.len() {
        let declaration = &declarations[i];
        if is_bad_declaration(
            theory,
            diagram,
            unit,
            &names,
            &declarations[..i],
            declaration,
        ) {
            return Ok(Some(i));
        }
        names = names.with(alloc, &declaration.name)?;
    }
    Ok(None)
}

/// The names that are declared, in order.
#[tactic(auto, using(crate::proofs::Indexed::indexing))]
pub fn names_declared(alloc: Global, declarations: &[Decl]) -> Result<NameIndex, NoMemory>
    ensures { IfOk result (λ names. names ≡ declared_names declarations.now) }
{
    let mut names = NameIndex::new(alloc);
    let mut rest = declarations;
    while let [declaration, behind @ ..] = rest {
        names = names.with(alloc, &declaration.name)?;
        rest = behind;
    }
    Ok(names)
}

// A declaration behind earlier ones, which declare these names.
fn is_bad_declaration(
    theory: &Theory,
    diagram: &Diagram,
    unit: &Unit,
    names: &NameIndex,
    earlier: &[Decl],
    declaration: &Decl,
) -> bool
    requires { names.now ≡ declared_names earlier.now }
    ensures { result ≡ is_declaration_bad theory.now diagram.now unit.now earlier.now declaration.now }
{
    names.contains(&declaration.name)
        || !declares(theory, diagram, unit, earlier.len(), declaration)
}

// The dummy with that many before it: an input, or behind the inputs an output.
#[tactic(auto, using(crate::proofs::Dummies::dummies))]
fn dummy_at(diagram: &Diagram, at: usize) -> Option<&(Name, SortId)>
    ensures { option_copied result ≡ slice_get (dummies_of diagram.now) at }
{
    let count = diagram.inputs.len();
    if at < count {
        diagram.inputs.get(at)
    } else {
        diagram.outputs.get(at - count)
    }
}

fn declares(theory: &Theory, diagram: &Diagram, unit: &Unit, at: usize, declaration: &Decl) -> bool
    ensures { result ≡ is_declaring theory.now unit.now (slice_get (dummies_of diagram.now) at) declaration.now }
{
    match dummy_at(diagram, at) {
        Some(dummy) => {
            declaration.name.as_str() == dummy.0.as_str()
                && have_one_type(Some(declaration.ty), type_of_dummy(theory, dummy.1))
        }
        None => is_local(theory, unit, declaration) || is_function(theory, declaration),
    }
}

fn is_local(theory: &Theory, unit: &Unit, declaration: &Decl) -> bool
    ensures { result ≡ is_lawful_local theory.now unit.now declaration.now }
{
    !is_one_of(&declaration.name, unit.dummies.as_slice())
        && declaration.name.as_str() != unit.name.as_str()
        && !is_fortran_name(theory, &declaration.name)
        && !is_text_of_any_length(declaration.ty)
}

fn is_function(theory: &Theory, declaration: &Decl) -> bool
    ensures { result ≡ is_lawful_function theory.now declaration.now }
{
    match function_named(theory, &declaration.name) {
        Some(function) => {
            let sort = result_sort(theory, function.symbol);
            have_one_type(Some(declaration.ty), type_of_function(theory, sort))
        }
        None => false,
    }
}

/// Whether there are fewer declarations than dummies.
pub fn lacks_dummy(unit: &Unit) -> bool
    ensures { result ≡ is_dummy_lacking unit.now }
{
    unit.declarations.len() < unit.dummies.len()
}

/// The declarations behind those of the dummies.
pub fn further(unit: &Unit) -> &[Decl]
    ensures { result.now ≡ declared_behind unit.now }
{
    let declarations = unit.declarations.as_slice();
    let count = unit.dummies.len();
    if count <= declarations.len() {
        &declarations[count..]
    } else {
        &[]
    }
}

/// The type with which a name is declared, if it is.
pub fn declared_type(scene: &Scene, name: &Name) -> Option<FortranType>
    ensures { result ≡ type_declared scene.now.unit.now name.now }
{
    type_at(
        scene.unit.declarations.as_slice(),
        scene.declared.place(name),
    )
}

fn type_at(declarations: &[Decl], place: Option<usize>) -> Option<FortranType>
    ensures { result ≡ type_declared_at declarations.now place }
{
    match declarations.get(place?) {
        Some(declaration) => Some(declaration.ty),
        None => None,
    }
}

/// Whether the name is an output's, or is declared and neither a dummy's nor a function's.
pub fn may_be_set(scene: &Scene, name: &Name) -> bool
    ensures { result ≡ is_settable scene.now.theory.now scene.now.diagram.now scene.now.unit.now name.now }
{
    is_listed(name, scene.diagram.outputs.as_slice())
        || (scene.behind.contains(name) && function_named(scene.theory, name).is_none())
}
