ghost use Rattle.std.specs.Prelude.{◌≡◌, ◌++◌, [], ◌∷◌, pos, IfOk, map, codes};
ghost use Rattle.am_syntax.specs.Forms.{word_form, list_form, headed_form};
ghost use Rattle.am_canon.specs.CanonicalText.{number_form, value_form, names_form, typed_form, rep_form, rep_forms, version_form, decl_form};

use am_syntax::{WrittenFormula, formula_form};
use am_term::{Name, NoMemory};
use am_text::{Form, FormNode};
use am_theory::{Declaration, LitValue, Typed, WrittenRep};
use sqlite_items::Items;
use std::alloc::Global;

fn word_form(alloc: Global, word: &str) -> Result<Form, NoMemory>
    ensures { IfOk result (λ f. f ≡ word_form word.now) }
{
    let word = Name::new(alloc, word)?;
    Ok(Form {
        place: 0,
        node: FormNode::Word(word),
    })
}

fn number_form(number: i64) -> Form
    ensures { result ≡ number_form number }
{
    Form {
        place: 0,
        node: FormNode::Number(number),
    }
}

fn list_form(members: Items<Form>) -> Form
    ensures { result ≡ list_form members }
{
    Form {
        place: 0,
        node: FormNode::List(members),
    }
}

fn value_form(alloc: Global, value: &LitValue) -> Result<Form, NoMemory>
    ensures { IfOk result (λ f. f ≡ value_form value.now) }
{
    match value {
        LitValue::Int(number) => Ok(number_form(*number)),
        LitValue::Text(text) => {
            let text = Name::new(alloc, text.as_str())?;
            Ok(Form {
                place: 0,
                node: FormNode::Text(text),
            })
        }
    }
}

// The forms with one more at the end.
fn with_form(forms: Items<Form>, form: Form) -> Result<Items<Form>, NoMemory>
    ensures { IfOk result (λ more. more ≡ forms ++ form ∷ []) }
{
    let mut forms = forms;
    forms.push(form)?;
    Ok(forms)
}

// The forms with that of a word at the end.
fn with_word(alloc: Global, forms: Items<Form>, word: &str) -> Result<Items<Form>, NoMemory>
    ensures { IfOk result (λ more. more ≡ forms ++ word_form word.now ∷ []) }
{
    let word = word_form(alloc, word)?;
    with_form(forms, word)
}

// The form of a word alone among the members of a list.
fn first_word(alloc: Global, head: &str) -> Result<Items<Form>, NoMemory>
    ensures { IfOk result (λ fs. fs ≡ word_form head.now ∷ []) }
{
    with_word(alloc, Items::new(alloc), head)
}

// The forms of a head and a word behind it.
fn two_words(alloc: Global, head: &str, word: &Name) -> Result<Items<Form>, NoMemory>
    ensures { IfOk result (λ fs. fs ≡ word_form head.now ∷ word_form word.now ∷ []) }
{
    let members = first_word(alloc, head)?;
    with_word(alloc, members, word.as_str())
}

#[tactic(auto, using(crate::proofs::FormSteps::map_laws))]
fn names_form(alloc: Global, names: &[Name]) -> Result<Form, NoMemory>
    ensures { IfOk result (λ f. f ≡ names_form names.now) }
{
    let mut members = Items::new(alloc);
    for name in names {
        members = with_word(alloc, members, name.as_str())?;
    }
    Ok(list_form(members))
}

// The forms with that of a list of names at the end.
fn with_names(alloc: Global, forms: Items<Form>, names: &[Name]) -> Result<Items<Form>, NoMemory>
    ensures { IfOk result (λ more. more ≡ forms ++ names_form names.now ∷ []) }
{
    let names = names_form(alloc, names)?;
    with_form(forms, names)
}

fn typed_form(alloc: Global, typed: &Typed) -> Result<Form, NoMemory>
    ensures { IfOk result (λ f. f ≡ typed_form typed.now) }
{
    let members = two_words(alloc, typed.name.as_str(), &typed.sort)?;
    Ok(list_form(members))
}

// The forms with that of a name and its sort at the end.
fn with_typed(alloc: Global, forms: Items<Form>, typed: &Typed) -> Result<Items<Form>, NoMemory>
    ensures { IfOk result (λ more. more ≡ forms ++ typed_form typed.now ∷ []) }
{
    let typed = typed_form(alloc, typed)?;
    with_form(forms, typed)
}

// The forms with those of names and their sorts at the end.
#[tactic(auto, using(crate::proofs::FormSteps::map_laws))]
fn with_all_typed(alloc: Global, forms: Items<Form>, all: &[Typed]) -> Result<Items<Form>, NoMemory>
    ensures { IfOk result (λ more. more ≡ forms ++ map typed_form all.now) }
{
    let mut members = forms;
    for typed in all {
        members = with_typed(alloc, members, typed)?;
    }
    Ok(members)
}

fn rep_form(alloc: Global, rep: WrittenRep) -> Result<Form, NoMemory>
    ensures { IfOk result (λ f. f ≡ rep_form rep) }
{
    match rep {
        WrittenRep::Double => word_form(alloc, "double"),
        WrittenRep::Integer => word_form(alloc, "integer"),
        WrittenRep::Logical => word_form(alloc, "logical"),
        WrittenRep::Char(length) => one_number(alloc, "char", length),
        WrittenRep::DoubleVec(extent) => one_number(alloc, "double", extent),
        WrittenRep::DoubleMat(rows, columns) => two_numbers(alloc, "double", rows, columns),
        WrittenRep::IntegerVec(extent) => one_number(alloc, "integer", extent),
    }
}

fn one_number(alloc: Global, head: &str, number: i64) -> Result<Form, NoMemory>
    ensures { IfOk result (λ f. f ≡ headed_form head.now (number_form number ∷ [])) }
{
    one_member(alloc, head, number_form(number))
}

fn two_numbers(alloc: Global, head: &str, first: i64, second: i64) -> Result<Form, NoMemory>
    ensures { IfOk result (λ f. f ≡ headed_form head.now (number_form first ∷ number_form second ∷ [])) }
{
    let members = first_word(alloc, head)?;
    let members = with_form(members, number_form(first))?;
    let members = with_form(members, number_form(second))?;
    Ok(list_form(members))
}

// The forms with those of a sort's representation and copy routine at the end.
fn with_rep(
    alloc: Global,
    forms: Items<Form>,
    rep: &Option<WrittenRep>,
    copy: &Option<Name>,
) -> Result<Items<Form>, NoMemory>
    ensures { IfOk result (λ more. more ≡ forms ++ rep_forms rep.now copy.now) }
{
    let Some(rep) = rep else {
        return Ok(forms);
    };
    let rep = rep_form(alloc, *rep)?;
    let forms = with_form(forms, rep)?;
    match copy {
        Some(copy) => with_word(alloc, forms, copy.as_str()),
        None => Ok(forms),
    }
}

fn sort_form(
    alloc: Global,
    name: &Name,
    rep: &Option<WrittenRep>,
    copy: &Option<Name>,
) -> Result<Form, NoMemory>
    ensures { IfOk result (λ f. f ≡ headed_form (codes "sort") (word_form name.now ∷ rep_forms rep.now copy.now)) }
{
    let members = two_words(alloc, "sort", name)?;
    let members = with_rep(alloc, members, rep, copy)?;
    Ok(list_form(members))
}

fn subsort_form(alloc: Global, name: &Name, sort: &Name) -> Result<Form, NoMemory>
    ensures { IfOk result (λ f. f ≡ headed_form (codes "subsort") (word_form name.now ∷ word_form sort.now ∷ [])) }
{
    let members = two_words(alloc, "subsort", name)?;
    let members = with_word(alloc, members, sort.as_str())?;
    Ok(list_form(members))
}

fn function_form(alloc: Global, name: &Name, args: &[Name], sort: &Name) -> Result<Form, NoMemory>
    ensures { IfOk result (λ f. f ≡ headed_form (codes "function")
        (word_form name.now ∷ names_form args.now ∷ word_form sort.now ∷ [])) }
{
    let members = two_words(alloc, "function", name)?;
    let members = with_names(alloc, members, args)?;
    let members = with_word(alloc, members, sort.as_str())?;
    Ok(list_form(members))
}

fn relation_form(alloc: Global, name: &Name, args: &[Name]) -> Result<Form, NoMemory>
    ensures { IfOk result (λ f. f ≡ headed_form (codes "relation") (word_form name.now ∷ names_form args.now ∷ [])) }
{
    let members = two_words(alloc, "relation", name)?;
    let members = with_names(alloc, members, args)?;
    Ok(list_form(members))
}

fn literal_form(alloc: Global, name: &Name, sort: &Name, value: &LitValue) -> Result<Form, NoMemory>
    ensures { IfOk result (λ f. f ≡ headed_form (codes "literal")
        (word_form name.now ∷ word_form sort.now ∷ value_form value.now ∷ [])) }
{
    let members = two_words(alloc, "literal", name)?;
    let members = with_word(alloc, members, sort.as_str())?;
    let members = with_value(alloc, members, value)?;
    Ok(list_form(members))
}

// The forms with that of a literal's value at the end.
fn with_value(alloc: Global, forms: Items<Form>, value: &LitValue) -> Result<Items<Form>, NoMemory>
    ensures { IfOk result (λ more. more ≡ forms ++ value_form value.now ∷ []) }
{
    let value = value_form(alloc, value)?;
    with_form(forms, value)
}

fn routine_form(
    alloc: Global,
    name: &Name,
    inputs: &[Name],
    outputs: &[Typed],
) -> Result<Form, NoMemory>
    ensures { IfOk result (λ f. f ≡ headed_form (codes "routine")
        (word_form name.now ∷ names_form inputs.now ∷ map typed_form outputs.now)) }
{
    let members = two_words(alloc, "routine", name)?;
    let members = with_names(alloc, members, inputs)?;
    let members = with_all_typed(alloc, members, outputs)?;
    Ok(list_form(members))
}

fn value_decl_form(
    alloc: Global,
    function: &Name,
    name: &Name,
    args: &[Name],
    sort: &Name,
) -> Result<Form, NoMemory>
    ensures { IfOk result (λ f. f ≡ headed_form (codes "value")
        (word_form function.now ∷ word_form name.now ∷ names_form args.now ∷ word_form sort.now ∷ [])) }
{
    let members = two_words(alloc, "value", function)?;
    let members = with_word(alloc, members, name.as_str())?;
    let members = with_names(alloc, members, args)?;
    let members = with_word(alloc, members, sort.as_str())?;
    Ok(list_form(members))
}

/// The first form of a theory file of this version.
pub fn version_form(alloc: Global, version: u32) -> Result<Form, NoMemory>
    ensures { IfOk result (λ f. f ≡ version_form version) }
{
    one_number(alloc, "theory", i64::from(version))
}

#[tactic(auto, unfolding(crate::specs::CanonicalText::decl_form))]
fn axiom_form(
    alloc: Global,
    variables: &[Typed],
    formula: &WrittenFormula,
) -> Result<Form, NoMemory>
    ensures { IfOk result (λ f. f ≡ decl_form (Declaration.Axiom variables.now formula.now)) }
{
    let formula = formula_form(alloc, formula)?;
    match variables {
        [] => one_member(alloc, "axiom", formula),
        [_, ..] => {
            let quantified = quantified_form(alloc, variables, formula)?;
            one_member(alloc, "axiom", quantified)
        }
    }
}

fn quantified_form(alloc: Global, variables: &[Typed], formula: Form) -> Result<Form, NoMemory>
    ensures { IfOk result (λ f. f ≡ headed_form (codes "all")
        (list_form (map typed_form variables.now) ∷ formula ∷ [])) }
{
    let members = quantifier(alloc, variables)?;
    let members = with_form(members, formula)?;
    Ok(list_form(members))
}

// The forms of `all` and of the list of its variables.
fn quantifier(alloc: Global, variables: &[Typed]) -> Result<Items<Form>, NoMemory>
    ensures { IfOk result (λ fs. fs ≡ word_form (codes "all") ∷ list_form (map typed_form variables.now) ∷ []) }
{
    let typed = with_all_typed(alloc, Items::new(alloc), variables)?;
    let members = first_word(alloc, "all")?;
    with_form(members, list_form(typed))
}

fn one_member(alloc: Global, head: &str, member: Form) -> Result<Form, NoMemory>
    ensures { IfOk result (λ f. f ≡ headed_form head.now (member ∷ [])) }
{
    let members = first_word(alloc, head)?;
    let members = with_form(members, member)?;
    Ok(list_form(members))
}

/// The form of a declaration, with all places 0.
#[tactic(auto, unfolding(crate::specs::CanonicalText::decl_form))]
pub fn decl_form(alloc: Global, declaration: &Declaration) -> Result<Form, NoMemory>
    ensures { IfOk result (λ f. f ≡ decl_form declaration.now) }
{
    match declaration {
        Declaration::Sort { name, rep, copy } => sort_form(alloc, name, rep, copy),
        Declaration::Subsort { name, sort } => subsort_form(alloc, name, sort),
        Declaration::Function { name, args, result } => {
            function_form(alloc, name, args.as_slice(), result)
        }
        Declaration::Relation { name, args } => relation_form(alloc, name, args.as_slice()),
        Declaration::Literal { name, sort, value } => literal_form(alloc, name, sort, value),
        Declaration::Routine {
            name,
            inputs,
            outputs,
        } => routine_form(alloc, name, inputs.as_slice(), outputs.as_slice()),
        Declaration::Value {
            function,
            name,
            args,
            result,
        } => value_decl_form(alloc, function, name, args.as_slice(), result),
        Declaration::Axiom { variables, formula } => {
            axiom_form(alloc, variables.as_slice(), formula)
        }
    }
}
