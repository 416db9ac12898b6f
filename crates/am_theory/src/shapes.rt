ghost use Rattle.std.specs.Prelude.{◌≡◌, [], ◌∷◌, IfOk, map, option_copied};
ghost use Rattle.am_syntax.specs.Shapes.{all_of, some_of};
ghost use Rattle.am_theory.specs.Declarations.{word_of, number_of, value_of, list_of, name_of, names_of, typed_of, rep_named, rep_of_one, rep_of_two, rep_in, written_rep_of, sort_decl, subsort_decl, function_decl, relation_decl, literal_decl, routine_decl, value_decl, axiom_decl, is_all, plain_axiom, quantified_axiom, decl_of, decl_headed, version_of};

use crate::declaration::{Declaration, Typed, WrittenRep};
use crate::theory::LitValue;
use am_syntax::{Words, formula_of};
use am_term::{Name, NoMemory, is_name};
use am_text::{Form, FormNode};
use sqlite_items::Items;
use std::alloc::Global;

/// The word that the form is, if it is one.
#[tactic(auto, using(crate::proofs::FormParts::form_laws))]
pub fn word_of(form: &Form) -> Option<&Name>
    ensures { option_copied result ≡ word_of form.now }
{
    match &form.node {
        FormNode::Word(word) => Some(word),
        FormNode::Number(_) => None,
        FormNode::Text(_) => None,
        FormNode::List(_) => None,
    }
}

/// The number that the form is, if it is one.
#[tactic(auto, using(crate::proofs::FormParts::form_laws))]
pub fn number_of(form: &Form) -> Option<i64>
    ensures { result ≡ number_of form.now }
{
    match &form.node {
        FormNode::Word(_) => None,
        FormNode::Number(number) => Some(*number),
        FormNode::Text(_) => None,
        FormNode::List(_) => None,
    }
}

/// The members of the list that the form is, if it is one.
#[tactic(auto, using(crate::proofs::FormParts::form_laws))]
pub fn list_of(form: &Form) -> Option<&[Form]>
    ensures { option_copied result ≡ list_of form.now }
{
    match &form.node {
        FormNode::Word(_) => None,
        FormNode::Number(_) => None,
        FormNode::Text(_) => None,
        FormNode::List(members) => Some(members.as_slice()),
    }
}

/// The value that the form is, if it is a number or a text.
#[tactic(auto, using(crate::proofs::FormParts::form_laws))]
pub fn value_of(alloc: Global, form: &Form) -> Result<Option<LitValue>, NoMemory>
    ensures { IfOk result (λ v. v ≡ value_of form.now) }
{
    match &form.node {
        FormNode::Word(_) => Ok(None),
        FormNode::Number(number) => Ok(Some(LitValue::Int(*number))),
        FormNode::Text(text) => {
            let text = Name::new(alloc, text.as_str())?;
            Ok(Some(LitValue::Text(text)))
        }
        FormNode::List(_) => Ok(None),
    }
}

/// The word that the form is, if that is a name.
#[tactic(auto, unfolding(crate::specs::Declarations::name_of))]
pub fn name_of(form: &Form) -> Option<&Name>
    ensures { option_copied result ≡ name_of form.now }
{
    let word = word_of(form)?;
    if !is_name(word.as_str().as_bytes()) {
        return None;
    }
    Some(word)
}

/// The names that the form lists, if it is a list of names.
#[tactic(auto, unfolding(crate::specs::Declarations::names_of))]
pub fn names_of(alloc: Global, form: &Form) -> Result<Option<Items<Name>>, NoMemory>
    ensures { IfOk result (λ ns. ns ≡ names_of form.now) }
{
    let Some(members) = list_of(form) else {
        return Ok(None);
    };
    all_names(alloc, members)
}

#[tactic(auto, using(crate::proofs::FormParts::list_laws))]
fn all_names(alloc: Global, forms: &[Form]) -> Result<Option<Items<Name>>, NoMemory>
    ensures { IfOk result (λ ns. ns ≡ all_of (map name_of forms.now)) }
{
    let mut names = Items::new(alloc);
    for form in forms {
        let Some(name) = name_of(form) else {
            return Ok(None);
        };
        names.push(Name::new(alloc, name.as_str())?)?;
    }
    Ok(Some(names))
}

/// The name and the sort that the form pairs, if it is such a pair.
#[tactic(auto, unfolding(crate::specs::Declarations::typed_of))]
pub fn typed_of(alloc: Global, form: &Form) -> Result<Option<Typed>, NoMemory>
    ensures { IfOk result (λ t. t ≡ typed_of form.now) }
{
    let Some([name, sort]) = list_of(form) else {
        return Ok(None);
    };
    let Some(name) = name_of(name) else {
        return Ok(None);
    };
    let Some(sort) = name_of(sort) else {
        return Ok(None);
    };
    let name = Name::new(alloc, name.as_str())?;
    let sort = Name::new(alloc, sort.as_str())?;
    Ok(Some(Typed { name, sort }))
}

/// The representation that the form writes, if it writes one.
#[tactic(auto, unfolding(crate::specs::Declarations::written_rep_of))]
pub fn written_rep_of(form: &Form) -> Option<WrittenRep>
    ensures { result ≡ written_rep_of form.now }
{
    match word_of(form) {
        Some(word) => rep_named(word.as_str()),
        None => rep_in(list_of(form)?),
    }
}

fn rep_named(word: &str) -> Option<WrittenRep>
    ensures { result ≡ rep_named word.now }
{
    if word == "double" {
        Some(WrittenRep::Double)
    } else if word == "integer" {
        Some(WrittenRep::Integer)
    } else if word == "logical" {
        Some(WrittenRep::Logical)
    } else {
        None
    }
}

fn rep_in(members: &[Form]) -> Option<WrittenRep>
    ensures { result ≡ rep_in members.now }
{
    match members {
        [head, number] => rep_of_one(word_of(head)?.as_str(), number_of(number)?),
        [head, first, second] => {
            rep_of_two(
                word_of(head)?.as_str(),
                number_of(first)?,
                number_of(second)?,
            )
        }
        _ => None,
    }
}

fn rep_of_one(head: &str, number: i64) -> Option<WrittenRep>
    ensures { result ≡ rep_of_one head.now number }
{
    if head == "char" {
        Some(WrittenRep::Char(number))
    } else if head == "double" {
        Some(WrittenRep::DoubleVec(number))
    } else if head == "integer" {
        Some(WrittenRep::IntegerVec(number))
    } else {
        None
    }
}

fn rep_of_two(head: &str, first: i64, second: i64) -> Option<WrittenRep>
    ensures { result ≡ rep_of_two head.now first second }
{
    if head == "double" {
        Some(WrittenRep::DoubleMat(first, second))
    } else {
        None
    }
}

#[tactic(auto, using(crate::proofs::FormParts::list_laws))]
fn all_typed(alloc: Global, forms: &[Form]) -> Result<Option<Items<Typed>>, NoMemory>
    ensures { IfOk result (λ ts. ts ≡ all_of (map typed_of forms.now)) }
{
    let mut all = Items::new(alloc);
    for form in forms {
        let Some(typed) = typed_of(alloc, form)? else {
            return Ok(None);
        };
        all.push(typed)?;
    }
    Ok(Some(all))
}

fn some_typed(alloc: Global, forms: &[Form]) -> Result<Option<Items<Typed>>, NoMemory>
    ensures { IfOk result (λ ts. ts ≡ some_of (map typed_of forms.now)) }
{
    match forms {
        [] => Ok(None),
        [_, ..] => all_typed(alloc, forms),
    }
}

fn sort_decl(alloc: Global, rest: &[Form]) -> Result<Option<Declaration>, NoMemory>
    ensures { IfOk result (λ d. d ≡ sort_decl rest.now) }
{
    match rest {
        [name] => abstract_sort(alloc, name),
        [name, rep] => concrete_sort(alloc, name, rep),
        [name, rep, copy] => copied_sort(alloc, name, rep, copy),
        _ => Ok(None),
    }
}

fn abstract_sort(alloc: Global, name: &Form) -> Result<Option<Declaration>, NoMemory>
    ensures { IfOk result (λ d. d ≡ sort_decl (name.now ∷ [])) }
{
    let Some(name) = name_of(name) else {
        return Ok(None);
    };
    Ok(Some(Declaration::Sort {
        name: Name::new(alloc, name.as_str())?,
        rep: None,
        copy: None,
    }))
}

fn concrete_sort(alloc: Global, name: &Form, rep: &Form) -> Result<Option<Declaration>, NoMemory>
    ensures { IfOk result (λ d. d ≡ sort_decl (name.now ∷ rep.now ∷ [])) }
{
    let Some(name) = name_of(name) else {
        return Ok(None);
    };
    let Some(rep) = written_rep_of(rep) else {
        return Ok(None);
    };
    Ok(Some(Declaration::Sort {
        name: Name::new(alloc, name.as_str())?,
        rep: Some(rep),
        copy: None,
    }))
}

fn copied_sort(
    alloc: Global,
    name: &Form,
    rep: &Form,
    copy: &Form,
) -> Result<Option<Declaration>, NoMemory>
    ensures { IfOk result (λ d. d ≡ sort_decl (name.now ∷ rep.now ∷ copy.now ∷ [])) }
{
    let Some(name) = name_of(name) else {
        return Ok(None);
    };
    let Some(rep) = written_rep_of(rep) else {
        return Ok(None);
    };
    let Some(copy) = word_of(copy) else {
        return Ok(None);
    };
    let name = Name::new(alloc, name.as_str())?;
    let copy = Name::new(alloc, copy.as_str())?;
    Ok(Some(Declaration::Sort {
        name,
        rep: Some(rep),
        copy: Some(copy),
    }))
}

fn subsort_decl(alloc: Global, rest: &[Form]) -> Result<Option<Declaration>, NoMemory>
    ensures { IfOk result (λ d. d ≡ subsort_decl rest.now) }
{
    let [name, sort] = rest else {
        return Ok(None);
    };
    let Some(name) = name_of(name) else {
        return Ok(None);
    };
    let Some(sort) = name_of(sort) else {
        return Ok(None);
    };
    Ok(Some(Declaration::Subsort {
        name: Name::new(alloc, name.as_str())?,
        sort: Name::new(alloc, sort.as_str())?,
    }))
}

fn function_decl(alloc: Global, rest: &[Form]) -> Result<Option<Declaration>, NoMemory>
    ensures { IfOk result (λ d. d ≡ function_decl rest.now) }
{
    let [name, args, sort] = rest else {
        return Ok(None);
    };
    let Some(name) = name_of(name) else {
        return Ok(None);
    };
    let Some(sort) = name_of(sort) else {
        return Ok(None);
    };
    let Some(args) = names_of(alloc, args)? else {
        return Ok(None);
    };
    let name = Name::new(alloc, name.as_str())?;
    let result = Name::new(alloc, sort.as_str())?;
    Ok(Some(Declaration::Function { name, args, result }))
}

fn relation_decl(alloc: Global, rest: &[Form]) -> Result<Option<Declaration>, NoMemory>
    ensures { IfOk result (λ d. d ≡ relation_decl rest.now) }
{
    let [name, args] = rest else {
        return Ok(None);
    };
    let Some(name) = name_of(name) else {
        return Ok(None);
    };
    let Some(args) = names_of(alloc, args)? else {
        return Ok(None);
    };
    let name = Name::new(alloc, name.as_str())?;
    Ok(Some(Declaration::Relation { name, args }))
}

fn literal_decl(alloc: Global, rest: &[Form]) -> Result<Option<Declaration>, NoMemory>
    ensures { IfOk result (λ d. d ≡ literal_decl rest.now) }
{
    let [name, sort, value] = rest else {
        return Ok(None);
    };
    let Some(name) = name_of(name) else {
        return Ok(None);
    };
    let Some(sort) = name_of(sort) else {
        return Ok(None);
    };
    let Some(value) = value_of(alloc, value)? else {
        return Ok(None);
    };
    let name = Name::new(alloc, name.as_str())?;
    let sort = Name::new(alloc, sort.as_str())?;
    Ok(Some(Declaration::Literal { name, sort, value }))
}

fn routine_decl(alloc: Global, rest: &[Form]) -> Result<Option<Declaration>, NoMemory>
    ensures { IfOk result (λ d. d ≡ routine_decl rest.now) }
{
    let [name, inputs, outputs @ ..] = rest else {
        return Ok(None);
    };
    let Some(name) = word_of(name) else {
        return Ok(None);
    };
    let Some(inputs) = names_of(alloc, inputs)? else {
        return Ok(None);
    };
    let Some(outputs) = some_typed(alloc, outputs)? else {
        return Ok(None);
    };
    let name = Name::new(alloc, name.as_str())?;
    Ok(Some(Declaration::Routine {
        name,
        inputs,
        outputs,
    }))
}

fn value_decl(alloc: Global, rest: &[Form]) -> Result<Option<Declaration>, NoMemory>
    ensures { IfOk result (λ d. d ≡ value_decl rest.now) }
{
    let [function, name, args, sort] = rest else {
        return Ok(None);
    };
    let Some(function) = word_of(function) else {
        return Ok(None);
    };
    let Some(name) = name_of(name) else {
        return Ok(None);
    };
    let Some(sort) = name_of(sort) else {
        return Ok(None);
    };
    let Some(args) = names_of(alloc, args)? else {
        return Ok(None);
    };
    let function = Name::new(alloc, function.as_str())?;
    let name = Name::new(alloc, name.as_str())?;
    let result = Name::new(alloc, sort.as_str())?;
    Ok(Some(Declaration::Value {
        function,
        name,
        args,
        result,
    }))
}

fn axiom_decl(alloc: Global, rest: &[Form]) -> Result<Option<Declaration>, NoMemory>
    ensures { IfOk result (λ d. d ≡ axiom_decl rest.now) }
{
    let [formula] = rest else {
        return Ok(None);
    };
    let Some([head, parts @ ..]) = list_of(formula) else {
        return plain_axiom(alloc, formula);
    };
    if is_all(head) {
        quantified_axiom(alloc, parts)
    } else {
        plain_axiom(alloc, formula)
    }
}

fn is_all(head: &Form) -> bool
    ensures { result ≡ is_all (word_of head.now) }
{
    match word_of(head) {
        Some(word) => word.as_str() == "all",
        None => false,
    }
}

fn plain_axiom(alloc: Global, formula: &Form) -> Result<Option<Declaration>, NoMemory>
    ensures { IfOk result (λ d. d ≡ plain_axiom formula.now) }
{
    let Some(formula) = formula_of(alloc, Words::Names, formula)? else {
        return Ok(None);
    };
    Ok(Some(Declaration::Axiom {
        variables: Items::new(alloc),
        formula,
    }))
}

fn quantified_axiom(alloc: Global, parts: &[Form]) -> Result<Option<Declaration>, NoMemory>
    ensures { IfOk result (λ d. d ≡ quantified_axiom parts.now) }
{
    let [variables, formula] = parts else {
        return Ok(None);
    };
    let Some(variables) = list_of(variables) else {
        return Ok(None);
    };
    let Some(variables) = some_typed(alloc, variables)? else {
        return Ok(None);
    };
    let Some(formula) = formula_of(alloc, Words::Names, formula)? else {
        return Ok(None);
    };
    Ok(Some(Declaration::Axiom { variables, formula }))
}

/// The declaration that the form is, if it has the shape of one. The format is this project's own.
#[tactic(auto, unfolding(crate::specs::Declarations::decl_of))]
pub fn decl_of(alloc: Global, form: &Form) -> Result<Option<Declaration>, NoMemory>
    ensures { IfOk result (λ d. d ≡ decl_of form.now) }
{
    let Some([head, rest @ ..]) = list_of(form) else {
        return Ok(None);
    };
    let Some(head) = word_of(head) else {
        return Ok(None);
    };
    decl_headed(alloc, head.as_str(), rest)
}

fn decl_headed(alloc: Global, head: &str, rest: &[Form]) -> Result<Option<Declaration>, NoMemory>
    ensures { IfOk result (λ d. d ≡ decl_headed head.now rest.now) }
{
    match head {
        "sort" => sort_decl(alloc, rest),
        "subsort" => subsort_decl(alloc, rest),
        "function" => function_decl(alloc, rest),
        "relation" => relation_decl(alloc, rest),
        "literal" => literal_decl(alloc, rest),
        "routine" => routine_decl(alloc, rest),
        "value" => value_decl(alloc, rest),
        "axiom" => axiom_decl(alloc, rest),
        _ => Ok(None),
    }
}

/// The version that the form names, if it is the first form of a theory file.
#[tactic(auto, unfolding(crate::specs::Declarations::version_of))]
pub fn version_of(form: &Form) -> Option<i64>
    ensures { result ≡ version_of form.now }
{
    let [head, number] = list_of(form)? else {
        return None;
    };
    if word_of(head)?.as_str() != "theory" {
        return None;
    }
    number_of(number)
}
