ghost use Rattle.std.specs.Prelude.{◌≡◌, ◌&&◌, true, length};
ghost use Rattle.std.specs.List.{list_all};
ghost use Rattle.am_term.specs.Names.{is_fortran_name as is_spelled_fortran};
ghost use Rattle.am_fortran.specs.Well.{is_type as is_kept_type, is_declaration as is_kept_declaration, is_statement as is_kept_statement, is_operand as is_kept_operand, is_unit_text_byte, fits_operand, fits_statement, is_between};
ghost use Rattle.am_fortran.specs.Items.{is_item as is_kept_item};

use crate::item::Item;
use crate::statement::{Decl, FortranType, Operand, Statement};
use am_term::{Name, is_fortran_name};

/// Whether a unit may have the item.
#[tactic(auto, unfolding(crate::specs::Items::is_item), using(crate::proofs::Elements::test_laws))]
pub fn is_item(item: &Item) -> bool
    ensures { result ≡ is_kept_item item.now }
{
    match item {
        Item::Head { name, dummies } => {
            is_name(name)
                && all_names(dummies.as_slice())
                && 1 <= dummies.len()
                && dummies.len() <= 18
        }
        Item::Declaration(declaration) => is_declaration(declaration),
        Item::Executable(statement) => is_statement(statement),
        Item::End => true,
    }
}

fn is_declaration(declaration: &Decl) -> bool
    ensures { result ≡ is_kept_declaration declaration.now }
{
    is_type(declaration.ty) && is_name(&declaration.name)
}

fn is_type(ty: FortranType) -> bool
    ensures { result ≡ is_kept_type ty }
{
    match ty {
        FortranType::Double => true,
        FortranType::Integer => true,
        FortranType::Logical => true,
        FortranType::Char(length) => 1 <= length && length <= 1024,
        FortranType::CharAny => true,
        FortranType::DoubleVec(extent) => 1 <= extent && extent <= 1000,
        FortranType::DoubleMat(rows, columns) => {
            (1 <= rows && rows <= 1000) && (1 <= columns && columns <= 1000)
        }
        FortranType::IntegerVec(extent) => 1 <= extent && extent <= 1000,
    }
}

#[tactic(auto, unfolding(crate::specs::Well::is_statement, crate::specs::Well::fits_statement), using(crate::proofs::Elements::test_laws))]
fn is_statement(statement: &Statement) -> bool
    ensures { result ≡ (is_kept_statement statement.now && fits_statement statement.now) }
{
    match statement {
        Statement::Call { routine, args } => {
            is_name(routine) && all_operands(args.as_slice()) && 1 <= args.len() && args.len() <= 18
        }
        Statement::Assign { target, from } => is_name(target) && is_operand(from),
        Statement::Apply {
            target,
            function,
            args,
        } => {
            is_name(target)
                && is_name(function)
                && all_operands(args.as_slice())
                && args.len() <= 12
        }
    }
}

#[tactic(auto, using(crate::proofs::Elements::test_laws))]
fn all_operands(operands: &[Operand]) -> bool
    ensures value { result ≡ list_all is_kept_operand operands.now }
    ensures fits { result ≡ true → list_all fits_operand operands.now ≡ true }
{
    for operand in operands {
        if !is_operand(operand) {
            return false;
        }
    }
    true
}

fn is_operand(operand: &Operand) -> bool
    ensures value { result ≡ is_kept_operand operand.now }
    ensures fits { fits_operand operand.now ≡ true }
{
    match operand {
        Operand::Name(name) => is_name(name),
        Operand::Int(number) => {
            let _number = *number;
            true
        }
        Operand::Text(text) => is_text(text.as_str().as_bytes()),
    }
}

fn is_text(text: &[u8]) -> bool
    ensures { result ≡ (list_all is_unit_text_byte text.now && is_between 1 32 (length text.now)) }
{
    all_text_bytes(text) && 1 <= text.len() && text.len() <= 32
}

#[tactic(auto, using(crate::proofs::Elements::test_laws))]
fn all_text_bytes(text: &[u8]) -> bool
    ensures { result ≡ list_all is_unit_text_byte text.now }
{
    for byte in text {
        if !text_byte(*byte) {
            return false;
        }
    }
    true
}

fn text_byte(byte: u8) -> bool
    ensures { result ≡ is_unit_text_byte byte }
{
    32 <= byte && byte <= 126 && byte != b'"' && byte != b'\''
}

#[tactic(auto, using(crate::proofs::Elements::test_laws))]
fn all_names(names: &[Name]) -> bool
    ensures { result ≡ list_all is_spelled_fortran names.now }
{
    for name in names {
        if !is_name(name) {
            return false;
        }
    }
    true
}

fn is_name(name: &Name) -> bool
    ensures { result ≡ is_spelled_fortran name.now }
{
    is_fortran_name(name.as_str().as_bytes())
}

/// Goes over the numbers of the statements, each of which is one of 64 bits.
#[tactic(auto, using(crate::proofs::Elements::test_laws))]
pub fn numbers_fit(statements: &[Statement])
    ensures { list_all fits_statement statements.now ≡ true }
{
    for statement in statements {
        statement_fits(statement);
    }
}

#[tactic(auto, unfolding(crate::specs::Well::fits_statement))]
fn statement_fits(statement: &Statement)
    ensures { fits_statement statement.now ≡ true }
{
    match statement {
        Statement::Call { args, .. } => operands_fit(args.as_slice()),
        Statement::Assign { from, .. } => operand_fits(from),
        Statement::Apply { args, .. } => operands_fit(args.as_slice()),
    }
}

#[tactic(auto, using(crate::proofs::Elements::test_laws))]
fn operands_fit(operands: &[Operand])
    ensures { list_all fits_operand operands.now ≡ true }
{
    for operand in operands {
        operand_fits(operand);
    }
}

fn operand_fits(operand: &Operand)
    ensures { fits_operand operand.now ≡ true }
{
    match operand {
        Operand::Name(_) => {}
        Operand::Int(number) => {
            let _number = *number;
        }
        Operand::Text(_) => {}
    }
}
