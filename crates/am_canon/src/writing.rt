ghost use Rattle.std.specs.Prelude.{◌≡◌, ◌++◌, [], ◌∷◌, IfOk, OnOk, map};
ghost use Rattle.am_text.specs.Spelling.{written, lines};
ghost use Rattle.am_canon.specs.CanonicalText.{decl_form, canonical_text};

use crate::declaration_forms::{decl_form, version_form};
use crate::declarations::declarations;
use am_term::NoMemory;
use am_text::{Form, write_form};
use am_theory::{Declaration, Theory};
use std::alloc::Global;

/// The canonical text of a theory: the first form, and then each declaration, a line each, one blank
/// between members. This project's own format.
#[tactic(auto, unfolding(crate::specs::CanonicalText::canon), using(crate::proofs::LineSteps::line_steps))]
pub fn write_theory(alloc: Global, theory: &Theory) -> Result<Vec<u8>, NoMemory>
    ensures { IfOk result (λ out. out.items ≡ canonical_text theory.now) }
{
    let all = declarations(alloc, theory)?;
    let first = version_form(alloc, theory.version)?;
    let mut out = Vec::new(alloc);
    push_line(alloc, &mut out, &first)?;
    push_lines(alloc, &mut out, all.as_slice())?;
    Ok(out)
}

#[tactic(auto, using(crate::proofs::LineSteps::line_steps))]
fn push_lines(alloc: Global, out: &mut Vec<u8>, all: &[Declaration]) -> Result<(), NoMemory>
    ensures { OnOk result (out.new.items ≡ out.old.items ++ lines (map decl_form all.now)) }
{
    for declaration in all {
        let form = decl_form(alloc, declaration)?;
        push_line(alloc, out, &form)?;
    }
    Ok(())
}

fn push_line(alloc: Global, out: &mut Vec<u8>, form: &Form) -> Result<(), NoMemory>
    ensures { OnOk result (out.new.items ≡ out.old.items ++ (written form.now ++ 10 ∷ [])) }
{
    let text = write_form(alloc, form)?;
    out.extend_from_slice(text.as_slice())?;
    out.push(b'\n')?;
    Ok(())
}
