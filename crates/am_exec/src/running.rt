ghost use Rattle.std.specs.Prelude.{◌≡◌, ◌+◌, ◌-◌, ◌<◌, ◌≤◌, ◌^◌, length, IfOk};
ghost use Rattle.am_diagram.specs.Listed.{entry_names, entry_sorts};
ghost use Rattle.am_exec.specs.ItemFaults.{statement_kind as first_kind};
ghost use Rattle.am_exec.specs.States.{inputs_held as held_at_start};
ghost use Rattle.am_exec.specs.Effects.{put as put_all};
ghost use Rattle.am_exec.specs.Terms.{terms, unless, stated as run_on, at_end as run_to_end, terms_held as all_held, IsAnswer};

use crate::declarations::{bad_declaration, further, is_bad_head, lacks_dummy, names_declared};
use crate::effects::effects;
use crate::fault::{ExecFault, ExecKind};
use crate::faults::{first_unset, has_wrong_count, has_wrong_sort, is_unknown};
use crate::scene::Scene;
use crate::store::{Store, inputs_held};
use crate::targets::{is_badly_declared, is_too_large, sets_twice};
use am_diagram::Diagram;
use am_fortran::{Statement, Unit};
use am_term::{Name, NoMemory, SortId, Term, copy};
use am_theory::Theory;
use sqlite_items::Items;
use std::alloc::Global;

/// The outputs' terms that a unit leaves where its names hold terms in place of numbers, or the first
/// item at which it breaks a rule, with the first rule that it breaks. The rules and their order are
/// this project's own.
#[tactic(auto, unfolding(crate::specs::Terms::terms), using(crate::proofs::Answering::answering))]
pub fn symbolic(
    alloc: Global,
    theory: &Theory,
    diagram: &Diagram,
    unit: &Unit,
) -> Result<Items<Term>, ExecFault>
    requires { length unit.now.declarations + length unit.now.statements + 2 < 2 ^ 32 - 1 }
    ensures { IsAnswer result (terms theory.now diagram.now unit.now) }
{
    if is_bad_head(diagram, unit) {
        return Err(ExecFault {
            item: 1,
            kind: ExecKind::BadDeclaration,
        });
    }
    if let Some(k) = bad_declaration(alloc, theory, diagram, unit)? {
        return Err(ExecFault {
            item: k as u32 + 2,
            kind: ExecKind::BadDeclaration,
        });
    }
    let sorts = input_sorts(alloc, diagram)?;
    let declared = names_declared(alloc, unit.declarations.as_slice())?;
    let behind = names_declared(alloc, further(unit))?;
    let scene = Scene {
        theory,
        diagram,
        unit,
        ins: sorts.as_slice(),
        declared: &declared,
        behind: &behind,
    };
    stated(alloc, &scene)
}

fn input_sorts(alloc: Global, diagram: &Diagram) -> Result<Items<SortId>, NoMemory>
    ensures { IfOk result (λ sorts. sorts ≡ entry_sorts diagram.now.inputs) }
{
    let mut sorts = Items::new(alloc);
    for input in diagram.inputs.as_slice() {
        sorts.push(input.1)?;
    }
    Ok(sorts)
}

// The statements from the first on, and then the end.
#[tactic(auto, using(crate::proofs::Answering::answering))]
fn stated(alloc: Global, scene: &Scene) -> Result<Items<Term>, ExecFault>
    requires few { length scene.now.unit.now.declarations + length scene.now.unit.now.statements + 2 < 2 ^ 32 - 1 }
    requires inputs { length scene.now.diagram.now.inputs ≤ 18 }
    requires sorts { scene.now.ins.now ≡ entry_sorts scene.now.diagram.now.inputs }
    ensures { IsAnswer result (run_on scene.now.theory.now scene.now.diagram.now scene.now.unit.now
        (length scene.now.unit.now.declarations + 2)
        (held_at_start scene.now.diagram.now.inputs) scene.now.unit.now.statements) }
{
    let mut item = scene.unit.declarations.len() as u32 + 2;
    let mut store = inputs_held(alloc, scene.diagram)?;
    let mut rest = scene.unit.statements.as_slice();
    while let [statement, behind @ ..] = rest {
        store = step(alloc, scene, item, store, statement)?;
        item += 1;
        rest = behind;
    }
    ended(alloc, scene.diagram, scene.unit, item, &store)
}

// What the names hold behind a statement, or its first kind of fault.
#[tactic(auto, using(crate::proofs::Answering::answering))]
fn step(
    alloc: Global,
    scene: &Scene,
    item: u32,
    store: Store,
    statement: &Statement,
) -> Result<Store, ExecFault>
    ensures { IsAnswer result (unless item
        (first_kind scene.now.theory.now scene.now.diagram.now scene.now.unit.now scene.now.ins.now store
        statement.now) (put_all scene.now.theory.now scene.now.diagram.now store statement.now)) }
{
    match statement_kind(alloc, scene, &store, statement)? {
        Some(kind) => Err(ExecFault { item, kind }),
        None => {
            let made = effects(alloc, scene, &store, statement)?;
            Ok(store.with_all(alloc, made)?)
        }
    }
}

// The first kind of fault that holds of a statement.
fn statement_kind(
    alloc: Global,
    scene: &Scene,
    store: &Store,
    statement: &Statement,
) -> Result<Option<ExecKind>, NoMemory>
    ensures { IfOk result (λ kind. kind ≡ first_kind scene.now.theory.now scene.now.diagram.now scene.now.unit.now
        scene.now.ins.now store.now statement.now) }
{
    if is_unknown(scene.theory, statement) {
        return Ok(Some(ExecKind::UnknownRoutine));
    }
    if has_wrong_count(scene.theory, statement) {
        return Ok(Some(ExecKind::WrongCount));
    }
    if let Some(name) = first_unset(scene.theory, store, statement) {
        let name = Name::new(alloc, name.as_str())?;
        return Ok(Some(ExecKind::NotSet(name)));
    }
    if has_wrong_sort(scene, store, statement) {
        return Ok(Some(ExecKind::WrongSort));
    }
    if sets_twice(scene.theory, store, statement) {
        return Ok(Some(ExecKind::SetTwice));
    }
    if is_badly_declared(scene, store, statement) {
        return Ok(Some(ExecKind::BadDeclaration));
    }
    if is_too_large(scene, store, statement) {
        return Ok(Some(ExecKind::TooLarge));
    }
    Ok(None)
}

// The outputs' terms, where each dummy is declared and each output is set.
#[tactic(auto, using(crate::proofs::Answering::answering))]
fn ended(
    alloc: Global,
    diagram: &Diagram,
    unit: &Unit,
    item: u32,
    store: &Store,
) -> Result<Items<Term>, ExecFault>
    ensures { IsAnswer result (run_to_end diagram.now unit.now item store.now) }
{
    if lacks_dummy(unit) {
        return Err(ExecFault {
            item,
            kind: ExecKind::BadDeclaration,
        });
    }
    match outputs_held(alloc, diagram, store)? {
        Some(terms) => Ok(terms),
        None => Err(ExecFault {
            item,
            kind: ExecKind::OutputNotSet,
        }),
    }
}

// Copies of the terms that the outputs hold, if each holds one.
#[tactic(auto, using(crate::proofs::Answering::answering))]
fn outputs_held(
    alloc: Global,
    diagram: &Diagram,
    store: &Store,
) -> Result<Option<Items<Term>>, NoMemory>
    ensures { IfOk result (λ terms. terms ≡ all_held store.now (entry_names diagram.now.outputs)) }
{
    let mut made = Items::new(alloc);
    let mut rest = diagram.outputs.as_slice();
    while let [output, behind @ ..] = rest {
        match store.get(&output.0) {
            Some(term) => made.push(copy(alloc, term)?)?,
            None => return Ok(None),
        }
        rest = behind;
    }
    Ok(Some(made))
}
