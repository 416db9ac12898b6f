ghost use Rattle.std.specs.Prelude.{◌≡◌, ◌++◌, IfOk, OnOk};
ghost use Rattle.std.specs.Fmt.{signed_decimal};
ghost use Rattle.am_text.specs.Spelling.{written};

use crate::form::{Form, FormNode};
use am_term::NoMemory;
use std::alloc::Global;

/// The spelling of a form: words as they are, numbers in decimal, texts between quotation marks, and
/// one blank between the members of a list. This project's own format.
pub fn write_form(alloc: Global, form: &Form) -> Result<Vec<u8>, NoMemory>
    ensures { IfOk result (λ out. out.items ≡ written form.now) }
{
    let mut out = Vec::new(alloc);
    write_at_end(alloc, &mut out, form)?;
    Ok(out)
}

#[tactic(auto, using(crate::proofs::WriteSteps::write_laws))]
fn write_at_end(alloc: Global, out: &mut Vec<u8>, form: &Form) -> Result<(), NoMemory>
    ensures { OnOk result (out.new.items ≡ out.old.items ++ written form.now) }
{
    match &form.node {
        FormNode::Word(word) => out.extend_from_slice(word.as_str().as_bytes())?,
        FormNode::Number(number) => write_number(alloc, out, *number)?,
        FormNode::Text(text) => {
            out.push(b'"')?;
            out.extend_from_slice(text.as_str().as_bytes())?;
            out.push(b'"')?;
        }
        FormNode::List(members) => {
            out.push(b'(')?;
            for (i, member) in members.as_slice().iter().enumerate() {
                if i > 0 {
                    out.push(b' ')?;
                }
                write_at_end(alloc, out, member)?;
            }
            out.push(b')')?;
        }
    }
    Ok(())
}

fn write_number(alloc: Global, out: &mut Vec<u8>, number: i64) -> Result<(), NoMemory>
    ensures { OnOk result (out.new.items ≡ out.old.items ++ signed_decimal number) }
{
    let text = number.to_string(alloc)?;
    out.extend_from_slice(text.as_bytes())?;
    Ok(())
}
