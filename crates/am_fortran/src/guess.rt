ghost use Rattle.std.specs.Prelude.{◌≡◌, IfOk, map, drop};
ghost use Rattle.std.specs.Str.{bytes_eq};
ghost use Rattle.am_fortran.specs.Guess.{operand_of, assigned, double_of, guessed_declaration, guessed, first_or_none, integer_type_of};

use crate::item::Item;
use crate::numbers::{integer, number};
use crate::statement::{Decl, FortranType, Operand, Statement};
use am_term::{Name, NoMemory};
use sqlite_items::Items;
use std::alloc::Global;

/// The item that the words may spell. Whether they do shows when its text is compared.
#[tactic(auto, unfolding(crate::specs::Guess::guessed))]
pub fn guess(alloc: Global, words: &[Name]) -> Result<Item, NoMemory>
    ensures { IfOk result (λ item. item ≡ guessed words.now) }
{
    let [first, behind @ ..] = words else {
        return Ok(Item::End);
    };
    let [second, rest @ ..] = behind else {
        return Ok(Item::End);
    };
    if is_word(second, "=") {
        return Ok(Item::Executable(assignment(alloc, first, rest)?));
    }
    if is_word(first, "SUBROUTINE") {
        let name = Name::new(alloc, second.as_str())?;
        let dummies = names(alloc, behind_first(rest))?;
        return Ok(Item::Head { name, dummies });
    }
    if is_word(first, "CALL") {
        let routine = Name::new(alloc, second.as_str())?;
        let args = operands(alloc, behind_first(rest))?;
        return Ok(Item::Executable(Statement::Call { routine, args }));
    }
    Ok(Item::Declaration(declaration(alloc, first, second, rest)?))
}

#[tactic(auto, unfolding(crate::specs::Guess::assigned))]
fn assignment(alloc: Global, target: &Name, rest: &[Name]) -> Result<Statement, NoMemory>
    ensures { IfOk result (λ statement. statement ≡ assigned target.now rest.now) }
{
    let target = Name::new(alloc, target.as_str())?;
    let [first, behind @ ..] = rest else {
        let from = Operand::Name(Name::new(alloc, "")?);
        return Ok(Statement::Assign { target, from });
    };
    if behind.is_empty() {
        let from = operand(alloc, first)?;
        return Ok(Statement::Assign { target, from });
    }
    let function = Name::new(alloc, first.as_str())?;
    let args = operands(alloc, behind_first(behind))?;
    Ok(Statement::Apply {
        target,
        function,
        args,
    })
}

#[tactic(auto, unfolding(crate::specs::Guess::guessed_declaration))]
fn declaration(alloc: Global, first: &Name, second: &Name, rest: &[Name]) -> Result<Decl, NoMemory>
    ensures { IfOk result (λ declaration. declaration ≡ guessed_declaration first.now second.now rest.now) }
{
    if is_word(first, "INTEGER") {
        let name = Name::new(alloc, second.as_str())?;
        let ty = integer_type(rest);
        return Ok(Decl { ty, name });
    }
    if is_word(first, "LOGICAL") {
        let name = Name::new(alloc, second.as_str())?;
        return Ok(Decl {
            ty: FortranType::Logical,
            name,
        });
    }
    let name = first_name(alloc, rest)?;
    let ty = if is_word(first, "DOUBLE") {
        double_type(behind_first(rest))
    } else if is_word(second, "(") {
        FortranType::CharAny
    } else {
        FortranType::Char(number(second.as_str()))
    };
    Ok(Decl { ty, name })
}

#[tactic(auto, unfolding(crate::specs::Guess::integer_type_of))]
fn integer_type(words: &[Name]) -> FortranType
    ensures { result ≡ integer_type_of words.now }
{
    match words {
        [_, extent, ..] => FortranType::IntegerVec(number(extent.as_str())),
        _ => FortranType::Integer,
    }
}

#[tactic(auto, unfolding(crate::specs::Guess::double_of))]
fn double_type(words: &[Name]) -> FortranType
    ensures { result ≡ double_of words.now }
{
    match words {
        [_, rows, columns, ..] => {
            FortranType::DoubleMat(number(rows.as_str()), number(columns.as_str()))
        }
        [_, extent] => FortranType::DoubleVec(number(extent.as_str())),
        _ => FortranType::Double,
    }
}

fn operands(alloc: Global, words: &[Name]) -> Result<Items<Operand>, NoMemory>
    ensures { IfOk result (λ operands. operands ≡ map operand_of words.now) }
{
    let mut operands = Items::new(alloc);
    for word in words {
        operands.push(operand(alloc, word)?)?;
    }
    Ok(operands)
}

fn names(alloc: Global, words: &[Name]) -> Result<Items<Name>, NoMemory>
    ensures { IfOk result (λ names. names ≡ words.now) }
{
    let mut names = Items::new(alloc);
    for word in words {
        names.push(Name::new(alloc, word.as_str())?)?;
    }
    Ok(names)
}

#[tactic(auto, unfolding(crate::specs::Guess::operand_of))]
fn operand(alloc: Global, word: &Name) -> Result<Operand, NoMemory>
    ensures { IfOk result (λ operand. operand ≡ operand_of word.now) }
{
    let text = word.as_str();
    let Some(first) = text.as_bytes().first() else {
        return Ok(Operand::Name(Name::new(alloc, "")?));
    };
    if *first == b'\'' {
        return Ok(Operand::Text(Name::new(alloc, &text[1..])?));
    }
    if first.is_ascii_digit() || *first == b'-' {
        return Ok(Operand::Int(integer(text)));
    }
    Ok(Operand::Name(Name::new(alloc, text)?))
}

fn is_word(word: &Name, other: &str) -> bool
    ensures { result ≡ bytes_eq word.now other.now }
{
    word.as_str() == other
}

fn first_name(alloc: Global, words: &[Name]) -> Result<Name, NoMemory>
    ensures { IfOk result (λ name. name ≡ first_or_none words.now) }
{
    match words {
        [first, ..] => Name::new(alloc, first.as_str()),
        [] => Name::new(alloc, ""),
    }
}

fn behind_first(words: &[Name]) -> &[Name]
    ensures { result.now ≡ drop 1 words.now }
{
    match words {
        [_, rest @ ..] => rest,
        [] => words,
    }
}
