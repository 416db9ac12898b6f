ghost use Rattle.std.specs.Prelude.{◌≡◌, ◌++◌, ◌∷◌, [], map, IfOk, OnOk, if◌then◌else◌, option_copied};
ghost use Rattle.am_term.specs.NameLists.{is_among};
ghost use Rattle.am_fortran.specs.declared.statement.Decl.{Decl};
ghost use Rattle.am_plan.specs.Names.{locals as locals_in};
ghost use Rattle.am_plan.specs.Plan.{dummy_decl as dummy_declaration, local_decl as local_declaration, called_function_decl as function_declaration, functions_used as functions_called, function_at};
ghost use Rattle.am_plan.specs.Calls.{listed_option};

use crate::application::Application;
use crate::call::{Callee, PlannedCall};
use crate::lookups::{rep_of_head, rep_of_sort};
use crate::naming::{Wanted, index_of, output_for};
use am_exec::{dummy_type, local_type};
use am_fortran::Decl;
use am_term::{Name, NoMemory, SortId, Term};
use am_theory::{FortranFunction, Theory};
use sqlite_items::Items;
use std::alloc::Global;

/// The declarations of inputs or outputs, behind what is there.
pub fn push_dummies(
    alloc: Global,
    theory: &Theory,
    dummies: &[(Name, SortId)],
    made: &mut Items<Decl>,
) -> Result<(), NoMemory>
    ensures { OnOk result (made.new ≡ made.old ++ map (dummy_declaration theory.now) dummies.now) }
{
    let mut rest = dummies;
    while let [dummy, behind @ ..] = rest {
        made.push(dummy_decl(alloc, theory, &dummy.0, dummy.1)?)?;
        rest = behind;
    }
    Ok(())
}

fn dummy_decl(alloc: Global, theory: &Theory, name: &Name, sort: SortId) -> Result<Decl, NoMemory>
    ensures { IfOk result (λ e. e ≡ dummy_declaration theory.now (name.now, sort)) }
{
    let ty = dummy_type(rep_of_sort(theory, sort));
    let name = Name::new(alloc, name.as_str())?;
    Ok(Decl { ty, name })
}

/// The declarations of the locals in order, behind what is there: of the names that are no output's.
#[tactic(auto, using(crate::proofs::Declared::declaring))]
pub fn push_locals(
    alloc: Global,
    theory: &Theory,
    outputs: &[(Name, SortId)],
    answer: &[Term],
    names: &[(Name, Application)],
    made: &mut Items<Decl>,
) -> Result<(), NoMemory>
    ensures { OnOk result (made.new ≡ made.old ++ map (local_declaration theory.now)
        (locals_in outputs.now answer.now names.now)) }
{
    let index = index_of(alloc, answer)?;
    let wanted = Wanted {
        outputs,
        answer,
        index: &index,
    };
    let mut rest = names;
    while let [entry, behind @ ..] = rest {
        if output_for(&entry.1, &wanted).is_none() {
            made.push(local_decl(alloc, theory, &entry.0, &entry.1)?)?;
        }
        rest = behind;
    }
    Ok(())
}

// A local has the type of its term's sort.
#[tactic(auto, using(crate::proofs::Declared::declaring))]
fn local_decl(
    alloc: Global,
    theory: &Theory,
    name: &Name,
    term: &Application,
) -> Result<Decl, NoMemory>
    ensures { IfOk result (λ e. e ≡ local_declaration theory.now (name.now, term.now)) }
{
    let ty = local_type(rep_of_head(theory, term.symbol()));
    let name = Name::new(alloc, name.as_str())?;
    Ok(Decl { ty, name })
}

/// The declarations of the listed functions that are called, in the order of their first use.
#[tactic(auto, using(crate::proofs::Declared::declaring))]
pub fn functions(
    alloc: Global,
    theory: &Theory,
    calls: &[PlannedCall],
) -> Result<Items<Decl>, NoMemory>
    ensures { IfOk result (λ es. es ≡ map (function_declaration theory.now) (functions_called theory.now calls.now)) }
{
    let mut made = Items::new(alloc);
    for call in calls {
        if let Some(function) = called_function(theory, call.callee()) {
            declare(alloc, theory, function, &mut made)?;
        }
    }
    Ok(made)
}

// The listed function that is called, if one is. Takes no memory.
fn called_function(theory: &Theory, callee: Callee) -> Option<&FortranFunction>
    ensures { listed_option (option_copied result) ≡ function_at theory.now callee }
{
    match callee {
        Callee::Routine(_) => None,
        Callee::Function(k) => theory.functions.get(k),
    }
}

// The declaration of a function behind what is there, unless its name is declared there.
#[tactic(auto, using(crate::proofs::Declared::declaring))]
fn declare(
    alloc: Global,
    theory: &Theory,
    function: &FortranFunction,
    made: &mut Items<Decl>,
) -> Result<(), NoMemory>
    ensures { OnOk result (made.new ≡ (if is_among function.now.name (map (λ (e : Decl).
        e.name) made.old) then made.old else made.old ++ function_declaration theory.now function.now ∷ [])) }
{
    if is_declared(&function.name, made.as_slice()) {
        return Ok(());
    }
    let ty = local_type(rep_of_head(theory, function.symbol));
    let name = Name::new(alloc, function.name.as_str())?;
    made.push(Decl { ty, name })?;
    Ok(())
}

// Whether the name is declared. Takes no memory.
fn is_declared(name: &Name, declarations: &[Decl]) -> bool
    ensures { result ≡ is_among name.now (map (λ (e : Decl). e.name) declarations.now) }
{
    let mut rest = declarations;
    while let [declaration, behind @ ..] = rest {
        if name.as_str() == declaration.name.as_str() {
            return true;
        }
        rest = behind;
    }
    false
}
