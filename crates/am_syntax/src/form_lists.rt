ghost use Rattle.std.specs.Prelude.{◌≡◌, ◌++◌, ◌∷◌, [], IfOk};
ghost use Rattle.am_syntax.specs.Forms.{word_form, list_form, headed_form};

use am_term::{Name, NoMemory};
use am_text::{Form, FormNode};
use sqlite_items::Items;
use std::alloc::Global;

/// The form of a word, with place 0.
pub fn word_form(alloc: Global, word: &str) -> Result<Form, NoMemory>
    ensures { IfOk result (λ f. f ≡ word_form word.now) }
{
    let word = Name::new(alloc, word)?;
    Ok(Form {
        place: 0,
        node: FormNode::Word(word),
    })
}

/// The form of a list of these members, with place 0. Takes no memory.
pub fn list_form(members: Items<Form>) -> Form
    ensures { result ≡ list_form members }
{
    Form {
        place: 0,
        node: FormNode::List(members),
    }
}

/// The forms with one more at the end.
pub fn with_form(forms: Items<Form>, form: Form) -> Result<Items<Form>, NoMemory>
    ensures { IfOk result (λ more. more ≡ forms ++ form ∷ []) }
{
    let mut forms = forms;
    forms.push(form)?;
    Ok(forms)
}

/// The form of a word alone among the members of a list.
pub fn first_word(alloc: Global, head: &str) -> Result<Items<Form>, NoMemory>
    ensures { IfOk result (λ fs. fs ≡ word_form head.now ∷ []) }
{
    let head = word_form(alloc, head)?;
    with_form(Items::new(alloc), head)
}

/// The form of a list of a word and one form, with place 0.
pub fn single_form(alloc: Global, head: &str, inner: Form) -> Result<Form, NoMemory>
    ensures { IfOk result (λ f. f ≡ headed_form head.now (inner ∷ [])) }
{
    let members = first_word(alloc, head)?;
    let members = with_form(members, inner)?;
    Ok(list_form(members))
}

/// The form of a list of a word and two forms, with place 0.
pub fn pair_form(alloc: Global, head: &str, left: Form, right: Form) -> Result<Form, NoMemory>
    ensures { IfOk result (λ f. f ≡ headed_form head.now (left ∷ right ∷ [])) }
{
    let members = two_forms(alloc, head, left)?;
    let members = with_form(members, right)?;
    Ok(list_form(members))
}

// A word's form and one more form.
fn two_forms(alloc: Global, head: &str, form: Form) -> Result<Items<Form>, NoMemory>
    ensures { IfOk result (λ fs. fs ≡ word_form head.now ∷ form ∷ []) }
{
    let members = first_word(alloc, head)?;
    with_form(members, form)
}
