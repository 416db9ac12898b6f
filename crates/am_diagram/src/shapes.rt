ghost use Rattle.std.specs.Prelude.{◌≡◌, [], ◌∷◌, IfOk};
ghost use Rattle.std.specs.Option.{option_copied};
ghost use Rattle.am_diagram.specs.declared.declaration.Declaration.TheVariants.{Input, Output};
ghost use Rattle.am_diagram.specs.Declarations.{variable_decl, object_decl, given_decl, require_decl, decl_headed, decl_of, diagram_name_of};

use crate::declaration::Declaration;
use am_syntax::{Words, literal_of};
use am_term::{Name, NoMemory};
use am_text::Form;
use am_theory::{list_of, name_of, word_of};
use std::alloc::Global;

fn input_decl(alloc: Global, rest: &[Form]) -> Result<Option<Declaration>, NoMemory>
    ensures { IfOk result (λ d. d ≡ variable_decl Input rest.now) }
{
    let [name, sort] = rest else {
        return Ok(None);
    };
    let Some(name) = word_of(name) else {
        return Ok(None);
    };
    let Some(sort) = name_of(sort) else {
        return Ok(None);
    };
    let name = Name::new(alloc, name.as_str())?;
    let sort = Name::new(alloc, sort.as_str())?;
    Ok(Some(Declaration::Input { name, sort }))
}

fn object_decl(alloc: Global, rest: &[Form]) -> Result<Option<Declaration>, NoMemory>
    ensures { IfOk result (λ d. d ≡ object_decl rest.now) }
{
    let [name, sort] = rest else {
        return Ok(None);
    };
    let Some(name) = name_of(name) else {
        return Ok(None);
    };
    let Some(sort) = name_of(sort) else {
        return Ok(None);
    };
    let name = Name::new(alloc, name.as_str())?;
    let sort = Name::new(alloc, sort.as_str())?;
    Ok(Some(Declaration::Object { name, sort }))
}

fn output_decl(alloc: Global, rest: &[Form]) -> Result<Option<Declaration>, NoMemory>
    ensures { IfOk result (λ d. d ≡ variable_decl Output rest.now) }
{
    let [name, sort] = rest else {
        return Ok(None);
    };
    let Some(name) = word_of(name) else {
        return Ok(None);
    };
    let Some(sort) = name_of(sort) else {
        return Ok(None);
    };
    let name = Name::new(alloc, name.as_str())?;
    let sort = Name::new(alloc, sort.as_str())?;
    Ok(Some(Declaration::Output { name, sort }))
}

fn given_decl(alloc: Global, rest: &[Form]) -> Result<Option<Declaration>, NoMemory>
    ensures { IfOk result (λ d. d ≡ given_decl rest.now) }
{
    let [literal] = rest else {
        return Ok(None);
    };
    let Some(literal) = literal_of(alloc, Words::Any, literal)? else {
        return Ok(None);
    };
    Ok(Some(Declaration::Given(literal)))
}

fn require_decl(alloc: Global, rest: &[Form]) -> Result<Option<Declaration>, NoMemory>
    ensures { IfOk result (λ d. d ≡ require_decl rest.now) }
{
    let [literal] = rest else {
        return Ok(None);
    };
    let Some(literal) = literal_of(alloc, Words::Any, literal)? else {
        return Ok(None);
    };
    Ok(Some(Declaration::Require(literal)))
}

/// The declaration that the form is, if it has the shape of one. The format is this project's own.
#[tactic(auto, unfolding(crate::specs::Declarations::decl_of))]
pub fn decl_of(alloc: Global, form: &Form) -> Result<Option<Declaration>, NoMemory>
    ensures { IfOk result (λ d. d ≡ decl_of form.now) }
{
    let Some([head, rest @ ..]) = list_of(form) else {
        return Ok(None);
    };
    let Some(head) = word_of(head) else {
        return Ok(None);
    };
    decl_headed(alloc, head.as_str(), rest)
}

fn decl_headed(alloc: Global, head: &str, rest: &[Form]) -> Result<Option<Declaration>, NoMemory>
    ensures { IfOk result (λ d. d ≡ decl_headed head.now rest.now) }
{
    match head {
        "input" => input_decl(alloc, rest),
        "object" => object_decl(alloc, rest),
        "output" => output_decl(alloc, rest),
        "given" => given_decl(alloc, rest),
        "require" => require_decl(alloc, rest),
        _ => Ok(None),
    }
}

/// The diagram's name, if the form is the first form of a diagram file.
#[tactic(auto, unfolding(crate::specs::Declarations::diagram_name_of))]
pub fn head_of(form: &Form) -> Option<&Name>
    ensures { option_copied result ≡ diagram_name_of form.now }
{
    let [head, name] = list_of(form)? else {
        return None;
    };
    if word_of(head)?.as_str() != "diagram" {
        return None;
    }
    word_of(name)
}
