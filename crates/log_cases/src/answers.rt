ghost use Rattle.std.specs.Prelude.{IfSome};
ghost use Rattle.am_theory.specs.Facts.{WellFormed};
ghost use Rattle.am_diagram.specs.Facts.{WellFormed as WellDrawn};

use am_diagram::{Diagram, diagrams_that_were_read_are_well_formed, read_diagram};
use am_log::{LogFault, LogKind, proof_length, read_log, write_log};
use am_term::NoMemory;
use am_theory::{Theory, read_theory, theories_that_were_read_are_well_formed};
use std::alloc::Global;

/// How many rows the log has that the text is, or the first fault.
pub fn log_answer(
    alloc: Global,
    theory: &[u8],
    diagram: &[u8],
    text: &[u8],
) -> Result<String, NoMemory> {
    let Some(theory) = theory_of(alloc, theory) else {
        return told(alloc, "no theory");
    };
    let Some(diagram) = diagram_of(alloc, &theory, diagram) else {
        return told(alloc, "no diagram");
    };
    if text.len() > 16777216 {
        return told(alloc, "too long");
    }
    match read_log(alloc, &theory, &diagram, text) {
        Ok(log) => {
            let written = write_log(alloc, &theory, &diagram, &log)?;
            if written.as_slice() == text {
                rows(alloc, log.rows.len())
            } else {
                told(alloc, "written otherwise")
            }
        }
        Err(fault) => at_fault(alloc, &fault),
    }
}

/// How many bytes the text's proof part has.
pub fn split_answer(alloc: Global, text: &[u8]) -> Result<String, NoMemory> {
    let length = proof_length(text);
    Ok(format!(in alloc; "{length} bytes")?)
}

fn theory_of(alloc: Global, text: &[u8]) -> Option<Theory>
    ensures { IfSome result (λ t. WellFormed t) }
{
    theories_that_were_read_are_well_formed();
    match read_theory(alloc, text) {
        Ok(theory) => Some(theory),
        Err(_) => None,
    }
}

fn diagram_of(alloc: Global, theory: &Theory, text: &[u8]) -> Option<Diagram>
    requires { WellFormed theory.now }
    ensures { IfSome result (λ d. WellDrawn theory.now d) }
{
    diagrams_that_were_read_are_well_formed();
    match read_diagram(alloc, theory, text) {
        Ok(diagram) => Some(diagram),
        Err(_) => None,
    }
}

fn told(alloc: Global, words: &str) -> Result<String, NoMemory> {
    Ok(String::from_str(alloc, words)?)
}

fn rows(alloc: Global, count: usize) -> Result<String, NoMemory> {
    Ok(format!(in alloc; "rows {count}")?)
}

fn at_fault(alloc: Global, fault: &LogFault) -> Result<String, NoMemory> {
    let line = fault.line;
    let words = words_of(fault.kind);
    Ok(format!(in alloc; "line {line}: {words}")?)
}

fn words_of(kind: LogKind) -> &'static str {
    match kind {
        LogKind::NotProof => "not a proof",
        LogKind::BadWrap => "bad line",
        LogKind::BadRow => "bad row",
        LogKind::BadNumber => "bad row number",
        LogKind::UnknownName => "unknown name",
        LogKind::BadSort => "bad sort",
        LogKind::NoMemory => "no memory",
    }
}
