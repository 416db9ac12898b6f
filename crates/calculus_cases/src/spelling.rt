//! The forms that a line spells.

use crate::Done;
use am_term::NoMemory;
use am_text::{Form, FormNode, TextLimits, read_forms};
use sqlite_items::Items;
use std::alloc::Global;

/// The forms of a line, in which `{N*TEXT}` stands for the text so many times; none where it spells none.
pub fn forms_of(alloc: Global, line: &str) -> Result<Items<Form>, NoMemory> {
    let mut text = String::new(alloc);
    for part in line.split('{') {
        match part.split_once('}') {
            Some((repeated, behind)) => {
                push_repeated(&mut text, repeated)?;
                text.push_str(behind)?;
            }
            None => text.push_str(part)?,
        }
    }
    let limits = TextLimits {
        bytes: 1_048_576,
        depth: 4096,
    };
    match read_forms(alloc, text.as_bytes(), limits) {
        Ok(forms) => Ok(forms),
        Err(_) => Ok(Items::new(alloc)),
    }
}

// The text of `N*TEXT` so many times.
fn push_repeated(text: &mut String, repeated: &str) -> Done {
    let (count, piece) = repeated.split_once('*').unwrap_or(("1", repeated));
    for _ in 0..count.parse::<u32>().unwrap_or(0) {
        text.push_str(piece)?;
    }
    Ok(())
}

/// The word that a form is; none is the empty one.
pub fn word(form: &Form) -> &str {
    match &form.node {
        FormNode::Word(word) => word.as_str(),
        _ => "",
    }
}

/// The number that a form is; none is 0.
pub fn number(form: &Form) -> u32 {
    match &form.node {
        FormNode::Number(number) => u32::try_from(*number).unwrap_or(0),
        _ => 0,
    }
}

/// The members of the list that a form is; none has none.
pub fn members(form: &Form) -> &[Form] {
    match &form.node {
        FormNode::List(members) => members.as_slice(),
        _ => &[],
    }
}
