ghost use Rattle.std.specs.Prelude.{◌≡◌, ◌++◌, IfOk, OnOk};
ghost use Rattle.am_demo.specs.Files.{theory_text, diagram_text, found_text, summary_text, lines_to, routine_line as line_of_routine, function_line as line_of_function, axiom_line as line_of_axiom};

use crate::lines::{axiom_line, function_line, push_number, routine_line};
use am_term::NoMemory;
use std::alloc::Global;

/// The theory file of the demonstration of size k, which is 1 to 300 on a command line: k routines, k functions and k
/// axioms.
#[tactic(auto, unfolding(crate::specs::Files::theory_text))]
pub fn theory_file(alloc: Global, k: u32) -> Result<Vec<u8>, NoMemory>
    ensures { IfOk result (λ text. text.items ≡ theory_text k) }
{
    let mut text = Vec::from_slice(alloc, b"(theory 1)\n(sort q double)\n")?;
    push_routines(alloc, &mut text, k)?;
    push_functions(alloc, &mut text, k)?;
    push_axioms(alloc, &mut text, k)?;
    Ok(text)
}

/// The diagram file of the demonstration of size k: one input, one output and what must hold of them.
#[tactic(auto, unfolding(crate::specs::Files::diagram_text))]
pub fn diagram_file(alloc: Global, k: u32) -> Result<Vec<u8>, NoMemory>
    ensures { IfOk result (λ text. text.items ≡ diagram_text k) }
{
    let mut text = Vec::from_slice(alloc, b"(diagram DEMO)\n(input X q)\n(output Y q)\n")?;
    push_number(alloc, &mut text, b"(require (= Y (a", k as usize)?;
    text.extend_from_slice(b" X)))\n")?;
    Ok(text)
}

/// The line that is printed of a demonstration of size k whose search has found a program.
#[tactic(auto, unfolding(crate::specs::Files::summary_text))]
pub fn summary(
    alloc: Global,
    k: u32,
    inferences: usize,
    calls: usize,
    rows: usize,
) -> Result<Vec<u8>, NoMemory>
    ensures { IfOk result (λ line. line.items ≡ summary_text k inferences calls rows) }
{
    let mut line = found(alloc, k, inferences, calls)?;
    push_number(alloc, &mut line, b" calls, ", rows)?;
    line.extend_from_slice(b" proof rows\n")?;
    Ok(line)
}

// The summary up to the number of calls.
fn found(alloc: Global, k: u32, inferences: usize, calls: usize) -> Result<Vec<u8>, NoMemory>
    ensures { IfOk result (λ line. line.items ≡ found_text k inferences calls) }
{
    let mut line = Vec::new(alloc);
    push_number(alloc, &mut line, b"demo ", k as usize)?;
    push_number(alloc, &mut line, b": found, ", inferences)?;
    push_number(alloc, &mut line, b" inferences, ", calls)?;
    Ok(line)
}

fn push_routines(alloc: Global, text: &mut Vec<u8>, k: u32) -> Result<(), NoMemory>
    ensures { OnOk result (text.new.items ≡ text.old.items ++ lines_to line_of_routine k) }
{
    for i in 0..k {
        let line = routine_line(alloc, i + 1)?;
        text.extend_from_slice(line.as_slice())?;
    }
    Ok(())
}

fn push_functions(alloc: Global, text: &mut Vec<u8>, k: u32) -> Result<(), NoMemory>
    ensures { OnOk result (text.new.items ≡ text.old.items ++ lines_to line_of_function k) }
{
    for i in 0..k {
        let line = function_line(alloc, i + 1)?;
        text.extend_from_slice(line.as_slice())?;
    }
    Ok(())
}

fn push_axioms(alloc: Global, text: &mut Vec<u8>, k: u32) -> Result<(), NoMemory>
    ensures { OnOk result (text.new.items ≡ text.old.items ++ lines_to line_of_axiom k) }
{
    for i in 0..k {
        let line = axiom_line(alloc, i + 1)?;
        text.extend_from_slice(line.as_slice())?;
    }
    Ok(())
}
