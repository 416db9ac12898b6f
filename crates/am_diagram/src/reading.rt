ghost use Rattle.std.specs.Prelude.{◌≡◌};
ghost use Rattle.am_diagram.specs.Reading.{Gives, IsAnswer, declared, read_from, draft_of_head, ended, forms_diagram, diagram};
ghost use Rattle.am_diagram.specs.Declarations.{diagram_name_of};

use crate::adding::{diagram_of, with_decl};
use crate::diagram::Diagram;
use crate::draft::Draft;
use crate::fault::{DiagramFault, DiagramKind, ReadError};
use crate::kinds::{end_kind, first_kind, head_kind};
use crate::looking::tables_of;
use crate::shapes::{decl_of, head_of};
use crate::tables::Tables;
use am_term::Name;
use am_text::{Form, TextKind, TextLimits, read_forms};
use am_theory::Theory;
use sqlite_items::Items;
use std::alloc::Global;

const FILE_LIMIT: u32 = 1048576;

const DEPTH_LIMIT: u32 = 64;

/// What there is after one more form.
#[tactic(auto, unfolding(crate::specs::Reading::declared))]
fn declared(alloc: Global, tables: &Tables, draft: Draft, form: &Form) -> Result<Draft, ReadError>
    ensures { Gives (λ d. d) result (declared tables.now.theory.now draft form.now) }
{
    let Some(declaration) = decl_of(alloc, form)? else {
        return Err(ReadError::at(form.place, DiagramKind::BadHead));
    };
    if let Some(kind) = first_kind(alloc, tables, &draft, &declaration)? {
        return Err(ReadError::at(form.place, kind));
    }
    Ok(with_decl(tables, draft, declaration)?)
}

/// What there is after the forms.
#[tactic(auto, using(crate::proofs::ReadSteps::read_steps))]
fn read_from(
    alloc: Global,
    tables: &Tables,
    draft: Draft,
    forms: &[Form],
) -> Result<Draft, ReadError>
    ensures { Gives (λ d. d) result (read_from tables.now.theory.now draft forms.now) }
{
    let mut draft = draft;
    let mut rest = forms;
    while let [form, behind @ ..] = rest {
        draft = declared(alloc, tables, draft, form)?;
        rest = behind;
    }
    Ok(draft)
}

/// What there is after the first form.
fn headed(alloc: Global, tables: &Tables, form: &Form) -> Result<Draft, ReadError>
    ensures { Gives (λ d. d) result (draft_of_head tables.now.theory.now form.now.place (diagram_name_of form.now)) }
{
    let Some(name) = head_of(form) else {
        return Err(ReadError::at(form.place, DiagramKind::BadHead));
    };
    if let Some(kind) = head_kind(tables, name) {
        return Err(ReadError::at(form.place, kind));
    }
    let name = Name::new(alloc, name.as_str())?;
    Ok(Draft {
        name,
        inputs: Items::new(alloc),
        objects: Items::new(alloc),
        outputs: Items::new(alloc),
        givens: Items::new(alloc),
        required: Items::new(alloc),
    })
}

/// The diagram at the end of a file of this size.
fn ended(alloc: Global, tables: &Tables, size: u32, draft: Draft) -> Result<Diagram, ReadError>
    ensures { Gives (λ d. d) result (ended tables.now.theory.now size draft) }
{
    if let Some(kind) = end_kind(&draft) {
        return Err(ReadError::at(size, kind));
    }
    Ok(diagram_of(alloc, tables, draft)?)
}

/// The diagram that the forms are.
#[tactic(auto, unfolding(crate::specs::Reading::forms_diagram))]
fn forms_diagram(
    alloc: Global,
    tables: &Tables,
    size: u32,
    forms: &[Form],
) -> Result<Diagram, ReadError>
    ensures { Gives (λ d. d) result (forms_diagram tables.now.theory.now size forms.now) }
{
    let [first, rest @ ..] = forms else {
        return Err(ReadError::at(size, DiagramKind::BadHead));
    };
    let draft = headed(alloc, tables, first)?;
    let draft = read_from(alloc, tables, draft, rest)?;
    ended(alloc, tables, size, draft)
}

#[tactic(auto, unfolding(crate::specs::Reading::diagram))]
fn read_bytes(alloc: Global, theory: &Theory, bytes: &[u8]) -> Result<Diagram, ReadError>
    ensures { Gives (λ d. d) result (diagram theory.now bytes.now) }
{
    let limits = TextLimits {
        bytes: FILE_LIMIT,
        depth: DEPTH_LIMIT,
    };
    match read_forms(alloc, bytes, limits) {
        Ok(forms) => {
            let tables = tables_of(alloc, theory)?;
            forms_diagram(alloc, &tables, bytes.len() as u32, forms.as_slice())
        }
        Err(fault) if fault.kind == TextKind::NoMemory => Err(ReadError::Memory),
        Err(fault) => Err(ReadError::at(fault.place, DiagramKind::Text(fault.kind))),
    }
}

/// The diagram that a file is over a theory, or the file's first fault: its kind, and the offset of the
/// declaration that has it. `NoMemory` may come for any file. The format is this project's own.
pub fn read_diagram(alloc: Global, theory: &Theory, bytes: &[u8]) -> Result<Diagram, DiagramFault>
    ensures exact { IsAnswer result (diagram theory.now bytes.now) }
{
    match read_bytes(alloc, theory, bytes) {
        Ok(diagram) => Ok(diagram),
        Err(ReadError::Memory) => Err(DiagramFault {
            place: 0,
            kind: DiagramKind::NoMemory,
        }),
        Err(ReadError::Fault(fault)) => Err(fault),
    }
}
