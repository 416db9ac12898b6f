use am_term::Name;
use sqlite_items::Items;

/// A form and its place, the offset of its first byte, from 0.
#[cycle(form)]
#[derive(Drop)]
pub struct Form {
    pub place: u32,
    pub node: FormNode,
}

/// A word, a number, a text without its quotation marks, or a list of forms.
#[cycle(form)]
#[derive(Drop)]
pub enum FormNode {
    Word(Name),
    Number(i64),
    Text(Name),
    List(Items<Form>),
}
