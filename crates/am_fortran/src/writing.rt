ghost use Rattle.std.specs.Prelude.{◌≡◌, ◌∷◌, ◌++◌, [], map, IfOk, OnOk};
ghost use Rattle.std.specs.List.{flat_map};
ghost use Rattle.std.specs.Fmt.{decimal};
ghost use Rattle.am_fortran.specs.Items.{item_text};
ghost use Rattle.am_fortran.specs.Joined.{separated};
ghost use Rattle.am_fortran.specs.Text.{line, continued, with_list, operand_text, type_text, extents_text, declaration_text, statement_text, head_text, unit_text};

use crate::item::Item;
use crate::statement::{Decl, FortranType, Operand, Statement};
use crate::unit::Unit;
use am_term::{Name, NoMemory};
use sqlite_items::Items;
use std::alloc::Global;

/// The text of the unit, in the fixed form of ANSI X3.9-1978. The layout is this project's own.
/// `NoMemory` where no memory is left.
#[tactic(auto, unfolding(crate::specs::Text::unit_text))]
pub fn write_unit(alloc: Global, unit: &Unit) -> Result<Vec<u8>, NoMemory>
    ensures { IfOk result (λ text. text.items ≡ unit_text unit.now) }
{
    let mut out = Vec::new(alloc);
    push_head(alloc, &mut out, &unit.name, unit.dummies.as_slice())?;
    push_declarations(alloc, &mut out, unit.declarations.as_slice())?;
    push_statements(alloc, &mut out, unit.statements.as_slice())?;
    push_line(&mut out, b"END")?;
    Ok(out)
}

#[tactic(auto, unfolding(crate::specs::Text::head_text))]
fn push_head(
    alloc: Global,
    out: &mut Vec<u8>,
    name: &Name,
    dummies: &[Name],
) -> Result<(), NoMemory>
    ensures { OnOk result (out.new.items ≡ out.old.items ++ head_text name.now dummies.now) }
{
    let mut front = Vec::new(alloc);
    front.extend_from_slice(b"SUBROUTINE ")?;
    front.extend_from_slice(name.as_str().as_bytes())?;
    front.extend_from_slice(b"(")?;
    push_with_list(alloc, out, front.as_slice(), dummies)
}

fn push_declarations(
    alloc: Global,
    out: &mut Vec<u8>,
    declarations: &[Decl],
) -> Result<(), NoMemory>
    ensures { OnOk result (out.new.items ≡ out.old.items ++ flat_map declaration_text declarations.now) }
{
    for declaration in declarations {
        push_declaration(alloc, out, declaration)?;
    }
    Ok(())
}

#[tactic(auto, unfolding(crate::specs::Text::declaration_text))]
fn push_declaration(alloc: Global, out: &mut Vec<u8>, declaration: &Decl) -> Result<(), NoMemory>
    ensures { OnOk result (out.new.items ≡ out.old.items ++ declaration_text declaration.now) }
{
    let mut text = Vec::new(alloc);
    push_type(alloc, &mut text, declaration.ty)?;
    text.extend_from_slice(declaration.name.as_str().as_bytes())?;
    push_extents(alloc, &mut text, declaration.ty)?;
    push_line(out, text.as_slice())
}

fn push_type(alloc: Global, out: &mut Vec<u8>, ty: FortranType) -> Result<(), NoMemory>
    ensures { OnOk result (out.new.items ≡ out.old.items ++ type_text ty) }
{
    match ty {
        FortranType::Double | FortranType::DoubleVec(_) | FortranType::DoubleMat(_, _) => {
            out.extend_from_slice(b"DOUBLE PRECISION ")?;
        }
        FortranType::Integer | FortranType::IntegerVec(_) => out.extend_from_slice(b"INTEGER ")?,
        FortranType::Logical => out.extend_from_slice(b"LOGICAL ")?,
        FortranType::Char(length) => {
            out.extend_from_slice(b"CHARACTER*")?;
            push_number(alloc, out, length)?;
            out.extend_from_slice(b" ")?;
        }
        FortranType::CharAny => out.extend_from_slice(b"CHARACTER*(*) ")?,
    }
    Ok(())
}

fn push_extents(alloc: Global, out: &mut Vec<u8>, ty: FortranType) -> Result<(), NoMemory>
    ensures { OnOk result (out.new.items ≡ out.old.items ++ extents_text ty) }
{
    match ty {
        FortranType::DoubleVec(extent) | FortranType::IntegerVec(extent) => {
            out.extend_from_slice(b"(")?;
            push_number(alloc, out, extent)?;
            out.extend_from_slice(b")")?;
        }
        FortranType::DoubleMat(rows, columns) => {
            out.extend_from_slice(b"(")?;
            push_number(alloc, out, rows)?;
            out.extend_from_slice(b",")?;
            push_number(alloc, out, columns)?;
            out.extend_from_slice(b")")?;
        }
        FortranType::Double
        | FortranType::Integer
        | FortranType::Logical
        | FortranType::Char(_)
        | FortranType::CharAny => {}
    }
    Ok(())
}

fn push_number(alloc: Global, out: &mut Vec<u8>, number: u32) -> Result<(), NoMemory>
    ensures { OnOk result (out.new.items ≡ out.old.items ++ decimal number) }
{
    let text = number.to_string(alloc)?;
    out.extend_from_slice(text.as_bytes())?;
    Ok(())
}

fn push_statements(
    alloc: Global,
    out: &mut Vec<u8>,
    statements: &[Statement],
) -> Result<(), NoMemory>
    ensures { OnOk result (out.new.items ≡ out.old.items ++ flat_map statement_text statements.now) }
{
    for statement in statements {
        push_statement(alloc, out, statement)?;
    }
    Ok(())
}

#[tactic(auto, unfolding(crate::specs::Text::statement_text))]
fn push_statement(alloc: Global, out: &mut Vec<u8>, statement: &Statement) -> Result<(), NoMemory>
    ensures { OnOk result (out.new.items ≡ out.old.items ++ statement_text statement.now) }
{
    let mut front = Vec::new(alloc);
    match statement {
        Statement::Call { routine, args } => {
            front.extend_from_slice(b"CALL ")?;
            front.extend_from_slice(routine.as_str().as_bytes())?;
            front.extend_from_slice(b"(")?;
            let texts = operand_texts(alloc, args.as_slice())?;
            push_with_list(alloc, out, front.as_slice(), texts.as_slice())
        }
        Statement::Assign { target, from } => {
            let text = operand(alloc, from)?;
            front.extend_from_slice(target.as_str().as_bytes())?;
            front.extend_from_slice(b" = ")?;
            front.extend_from_slice(text.as_str().as_bytes())?;
            push_line(out, front.as_slice())
        }
        Statement::Apply {
            target,
            function,
            args,
        } => {
            front.extend_from_slice(target.as_str().as_bytes())?;
            front.extend_from_slice(b" = ")?;
            front.extend_from_slice(function.as_str().as_bytes())?;
            front.extend_from_slice(b"(")?;
            let texts = operand_texts(alloc, args.as_slice())?;
            push_with_list(alloc, out, front.as_slice(), texts.as_slice())
        }
    }
}

fn operand_texts(alloc: Global, operands: &[Operand]) -> Result<Items<Name>, NoMemory>
    ensures { IfOk result (λ texts. texts ≡ map operand_text operands.now) }
{
    let mut texts = Items::new(alloc);
    for member in operands {
        texts.push(operand(alloc, member)?)?;
    }
    Ok(texts)
}

fn operand(alloc: Global, operand: &Operand) -> Result<Name, NoMemory>
    ensures { IfOk result (λ text. text ≡ operand_text operand.now) }
{
    match operand {
        Operand::Name(name) => Name::new(alloc, name.as_str()),
        Operand::Int(number) => Name::new(alloc, number.to_string(alloc)?.as_str()),
        Operand::Text(text) => quoted(alloc, text.as_str()),
    }
}

fn quoted(alloc: Global, text: &str) -> Result<Name, NoMemory>
    ensures { IfOk result (λ quoted. quoted ≡ 39 ∷ text.now ++ 39 ∷ []) }
{
    let quoted = format!(in alloc; "'{text}'")?;
    Name::new(alloc, quoted.as_str())
}

/// Writes `front`, the members and a closing parenthesis: on one line where it has at most 72
/// columns, else the members on lines of their own.
#[tactic(auto, unfolding(crate::specs::Text::with_list), using(crate::proofs::Lists::list_laws))]
fn push_with_list(
    alloc: Global,
    out: &mut Vec<u8>,
    front: &[u8],
    members: &[Name],
) -> Result<(), NoMemory>
    ensures { OnOk result (out.new.items ≡ out.old.items ++ with_list front.now members.now) }
{
    let mut whole = Vec::new(alloc);
    whole.extend_from_slice(front)?;
    push_joined(&mut whole, b", ", members)?;
    whole.extend_from_slice(b")")?;
    if whole.len() <= 66 {
        return push_line(out, whole.as_slice());
    }
    push_line(out, front)?;
    push_continued(out, members)
}

#[tactic(auto, using(crate::proofs::Lists::list_laws))]
fn push_continued(out: &mut Vec<u8>, members: &[Name]) -> Result<(), NoMemory>
    ensures { OnOk result (out.new.items ≡ out.old.items ++ continued members.now) }
{
    if members.is_empty() {
        return Ok(());
    }
    out.extend_from_slice(b"     . ")?;
    push_joined(out, b",\n     . ", members)?;
    out.extend_from_slice(b")\n")?;
    Ok(())
}

/// Writes the members with `separator` between them.
#[tactic(auto, unfolding(crate::specs::Joined::separated))]
fn push_joined(out: &mut Vec<u8>, separator: &[u8], members: &[Name]) -> Result<(), NoMemory>
    ensures { OnOk result (out.new.items ≡ out.old.items ++ separated separator.now members.now) }
{
    let [first, rest @ ..] = members else {
        return Ok(());
    };
    out.extend_from_slice(first.as_str().as_bytes())?;
    push_behind(out, separator, rest)
}

fn push_behind(out: &mut Vec<u8>, separator: &[u8], members: &[Name]) -> Result<(), NoMemory>
    ensures { OnOk result (out.new.items ≡ out.old.items ++ flat_map (λ member. separator.now ++ member) members.now) }
{
    for member in members {
        push_two(out, separator, member.as_str().as_bytes())?;
    }
    Ok(())
}

fn push_two(out: &mut Vec<u8>, first: &[u8], second: &[u8]) -> Result<(), NoMemory>
    ensures { OnOk result (out.new.items ≡ out.old.items ++ (first.now ++ second.now)) }
{
    out.extend_from_slice(first)?;
    out.extend_from_slice(second)?;
    Ok(())
}

/// Writes a line: six blanks, the statement and the byte that ends the line.
#[tactic(auto, unfolding(crate::specs::Text::line))]
fn push_line(out: &mut Vec<u8>, statement: &[u8]) -> Result<(), NoMemory>
    ensures { OnOk result (out.new.items ≡ out.old.items ++ line statement.now) }
{
    out.extend_from_slice(b"      ")?;
    out.extend_from_slice(statement)?;
    out.push(b'\n')?;
    Ok(())
}

/// Writes the text of an item.
#[tactic(auto, unfolding(crate::specs::Items::item_text))]
pub fn push_item(alloc: Global, out: &mut Vec<u8>, item: &Item) -> Result<(), NoMemory>
    ensures { OnOk result (out.new.items ≡ out.old.items ++ item_text item.now) }
{
    match item {
        Item::Head { name, dummies } => push_head(alloc, out, name, dummies.as_slice()),
        Item::Declaration(declaration) => push_declaration(alloc, out, declaration),
        Item::Executable(statement) => push_statement(alloc, out, statement),
        Item::End => push_line(out, b"END"),
    }
}
