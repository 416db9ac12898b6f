ghost use Rattle.std.specs.Prelude.{◌≡◌, ◌≤◌, length};
ghost use Rattle.am_text.specs.Scan.{read};
ghost use Rattle.am_theory.specs.Contents.{contents, nothing};
ghost use Rattle.am_theory.specs.Limits.{file_limit, depth_limit};
ghost use Rattle.am_theory.specs.Reading.{Gives, IsAnswer, declared, read_from, forms_theory, theory};
ghost use Rattle.am_theory.specs.TextErrors.{text_error};

use crate::adding::add_declaration;
use crate::fault::{ReadError, TheoryFault, TheoryKind};
use crate::kinds::first_kind;
use crate::shapes::{decl_of, version_of};
use crate::tables::Tables;
use crate::theory::Theory;
use am_text::{Form, TextFault, TextKind, TextLimits, read_forms};
use std::alloc::Global;

/// How many bytes a file may have.
const FILE_LIMIT: u32 = 1048576;

/// How many lists may be open in it at once.
const DEPTH_LIMIT: u32 = 64;

// Adds the declaration that a form is, or answers its first fault.
#[tactic(auto, unfolding(crate::specs::Reading::declared))]
fn declare(alloc: Global, tables: &mut Tables, form: &Form) -> Result<(), ReadError>
    ensures { Gives (λ _. contents tables.new.theory) result (declared (contents tables.old.theory) form.now) }
{
    let Some(declaration) = decl_of(alloc, form)? else {
        return Err(ReadError::at(form.place, TheoryKind::BadHead));
    };
    if let Some(kind) = first_kind(alloc, tables, &declaration)? {
        return Err(ReadError::at(form.place, kind));
    }
    add_declaration(alloc, tables, declaration)?;
    Ok(())
}

// Adds the declarations that the forms are, in order, or answers the first fault.
#[tactic(auto, using(crate::proofs::ReadSteps::read_steps))]
fn read_from(alloc: Global, tables: &mut Tables, forms: &[Form]) -> Result<(), ReadError>
    ensures { Gives (λ _. contents tables.new.theory) result (read_from (contents tables.old.theory) forms.now) }
{
    for form in forms {
        declare(alloc, tables, form)?;
    }
    Ok(())
}

// What the forms of a file of this many bytes declare, or the first fault.
#[tactic(auto, unfolding(crate::specs::Reading::forms_theory))]
fn forms_theory(
    alloc: Global,
    tables: &mut Tables,
    size: u32,
    forms: &[Form],
) -> Result<(), ReadError>
    requires { contents tables.now.theory ≡ nothing 1 }
    ensures { Gives (λ _. contents tables.new.theory) result (forms_theory size forms.now) }
{
    match forms {
        [] => Err(ReadError::at(size, TheoryKind::BadHead)),
        [head, rest @ ..] => match version_of(head) {
            None => Err(ReadError::at(head.place, TheoryKind::BadHead)),
            Some(1) => read_from(alloc, tables, rest),
            Some(2) => {
                tables.theory.version = 2;
                read_from(alloc, tables, rest)
            }
            Some(_) => Err(ReadError::at(head.place, TheoryKind::Version)),
        },
    }
}

/// The theory that a file is, or the first fault of the file: a fault of the text first, with its place,
/// then that of the first declaration that has one, with the least kind that it has and the
/// declaration's place. `NoMemory`, at place 0, may come for any file. The format is this project's own.
pub fn read_theory(alloc: Global, bytes: &[u8]) -> Result<Theory, TheoryFault>
    ensures exact { IsAnswer result (theory bytes.now) }
{
    let mut tables = Tables::new(alloc);
    match read_file(alloc, &mut tables, bytes) {
        Ok(()) => Ok(tables.theory),
        Err(ReadError::Memory) => Err(TheoryFault {
            place: 0,
            kind: TheoryKind::NoMemory,
        }),
        Err(ReadError::Fault(fault)) => Err(fault),
    }
}

// What a file declares, or the first fault.
fn read_file(alloc: Global, tables: &mut Tables, bytes: &[u8]) -> Result<(), ReadError>
    requires { contents tables.now.theory ≡ nothing 1 }
    ensures { Gives (λ _. contents tables.new.theory) result (theory bytes.now) }
{
    let limits = TextLimits {
        bytes: FILE_LIMIT,
        depth: DEPTH_LIMIT,
    };
    match read_forms(alloc, bytes, limits) {
        Ok(forms) => formed_theory(alloc, tables, bytes, forms.as_slice()),
        Err(fault) => Err(text_error(fault)),
    }
}

// What a file declares whose forms these are, or the first fault.
fn formed_theory(
    alloc: Global,
    tables: &mut Tables,
    bytes: &[u8],
    forms: &[Form],
) -> Result<(), ReadError>
    requires formed { read file_limit depth_limit bytes.now ≡ Ok forms.now }
    requires few { length bytes.now ≤ file_limit }
    requires empty { contents tables.now.theory ≡ nothing 1 }
    ensures { Gives (λ _. contents tables.new.theory) result (theory bytes.now) }
{
    forms_theory(alloc, tables, bytes.len() as u32, forms)
}

// The fault that a fault of the text is.
fn text_error(fault: TextFault) -> ReadError
    ensures { result ≡ text_error fault.place fault.kind }
{
    match fault.kind {
        TextKind::NoMemory => ReadError::Memory,
        kind => ReadError::at(fault.place, TheoryKind::Text(kind)),
    }
}
