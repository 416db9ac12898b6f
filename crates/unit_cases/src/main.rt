//! Cases of units: texts that are read and written again, units run by terms, and answers planned.
//!
//! Standard input has sections. A section begins with a line `== KIND`, and its other lines are one case; behind
//! `== each KIND` each line is one. A line that begins with `#` is a comment. The kinds `theory`, `diagram` and
//! `front` say what the cases behind them are about; `answer` has the others. No output is taken from the program:
//! what it has to answer is worked out by hand from the definitions.
#![tactic(auto)]

mod fault;
mod notation;
mod planning;
mod running;
mod scene;
mod terms;
mod texts;

use crate::fault::CaseFault;
use crate::notation::{expanded, without_comments};
use crate::planning::plan_answer;
use crate::running::run_answer;
use crate::scene::Scene;
use crate::texts::{cuts_answer, text_answer};
use am_term::NoMemory;
use std::alloc::{AllocGlobal, Global};
use std::io;

fn main(rt: HostRuntime) -> io::Result<()> {
    let alloc = rt.alloc();
    let input = io::read_to_string(alloc, rt.reader())?;
    match answers(alloc, input.as_str()) {
        Ok(text) => rt.print(text),
        Err(NoMemory) => Err(io::Error::from(io::ErrorKind::OutOfMemory)),
    }
}

// The answers of all sections.
fn answers(alloc: Global, input: &str) -> Result<String, NoMemory> {
    let input = without_comments(alloc, input)?;
    let mut scene = Scene {
        theory: "",
        diagram: "",
        front: "",
    };
    let mut out = String::new(alloc);
    for section in input.as_str().split("\n== ").skip(1) {
        let (kind, body) = section.split_once('\n').unwrap_or((section, ""));
        match kind {
            "theory" => scene.theory = body,
            "diagram" => scene.diagram = body,
            "front" => scene.front = body,
            _ => push_answers(alloc, &scene, kind, body, &mut out)?,
        }
    }
    Ok(out)
}

// The heading of a section with the answers of its cases.
fn push_answers(
    alloc: Global,
    scene: &Scene,
    kind: &str,
    body: &str,
    out: &mut String,
) -> Result<(), NoMemory> {
    writeln!(out, "== {kind}")?;
    match kind.strip_prefix("each ") {
        None => writeln!(out, "{}", answered(alloc, scene, kind, body)?)?,
        Some(kind) => {
            for row in body.lines() {
                writeln!(out, "{row} -> {}", answered(alloc, scene, kind, row)?)?;
            }
        }
    }
    Ok(())
}

// The answer of a case, or its fault.
fn answered(alloc: Global, scene: &Scene, kind: &str, body: &str) -> Result<String, NoMemory> {
    let body = expanded(alloc, body)?;
    match answer(alloc, scene, kind, body.as_str()) {
        Ok(answer) => Ok(answer),
        Err(CaseFault::Said(words)) => Ok(words),
        Err(CaseFault::Memory) => Err(NoMemory),
    }
}

// `text`: the text of a unit; `line`: one that stands between the front and an end; `cuts`: a text that is cut before
// each of its bytes; `unit`: statements between the front and an end, run by terms; `plan`: the terms of an answer.
fn answer(alloc: Global, scene: &Scene, kind: &str, body: &str) -> Result<String, CaseFault> {
    match kind {
        "text" => text_answer(alloc, body),
        "line" => {
            let text = format!(in alloc; "{}{body}\n      END\n", scene.front)?;
            text_answer(alloc, text.as_str())
        }
        "cuts" => cuts_answer(alloc, body),
        "unit" => run_answer(alloc, scene, body),
        "plan" => plan_answer(alloc, scene, body),
        _ => Err(CaseFault::said(alloc, "unknown kind")),
    }
}
