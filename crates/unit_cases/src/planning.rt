ghost use Rattle.am_theory.specs.Facts.{WellFormed as TheoryFacts};
ghost use Rattle.am_diagram.specs.Facts.{WellFormed as DiagramFacts};

use crate::fault::CaseFault;
use crate::scene::Scene;
use crate::terms::{terms_of, terms_text};
use am_diagram::Diagram;
use am_fortran::{Unit, write_unit};
use am_plan::{is_answer, plan};
use am_term::Term;
use am_theory::Theory;
use std::alloc::Global;

/// The subroutine of an answer; of a large one the number of its statements and the terms.
pub fn plan_answer(alloc: Global, scene: &Scene, text: &str) -> Result<String, CaseFault> {
    let theory = scene.theory(alloc)?;
    plan_over(alloc, scene, &theory, text)
}

// The same over a theory.
fn plan_over(alloc: Global, scene: &Scene, theory: &Theory, text: &str) -> Result<String, CaseFault>
    requires { TheoryFacts theory.now }
{
    let diagram = scene.diagram(alloc, theory)?;
    plan_for(alloc, theory, &diagram, text)
}

// The same for a diagram.
fn plan_for(
    alloc: Global,
    theory: &Theory,
    diagram: &Diagram,
    text: &str,
) -> Result<String, CaseFault>
    requires theory { TheoryFacts theory.now }
    requires diagram { DiagramFacts theory.now diagram.now }
{
    let answer = terms_of(alloc, theory, diagram, text)?;
    plan_terms(alloc, theory, diagram, answer.as_slice())
}

// The same of these terms.
fn plan_terms(
    alloc: Global,
    theory: &Theory,
    diagram: &Diagram,
    answer: &[Term],
) -> Result<String, CaseFault>
    requires theory { TheoryFacts theory.now }
    requires diagram { DiagramFacts theory.now diagram.now }
{
    if !is_answer(alloc, theory, diagram, answer)? {
        return Err(CaseFault::said(alloc, "no answer"));
    }
    let unit = plan(alloc, theory, diagram, answer)?;
    let count = unit.statements.len();
    if count > 100 {
        count_text(alloc, theory, diagram, answer, count)
    } else {
        unit_text(alloc, &unit)
    }
}

// The number of the statements and the terms.
fn count_text(
    alloc: Global,
    theory: &Theory,
    diagram: &Diagram,
    answer: &[Term],
    count: usize,
) -> Result<String, CaseFault> {
    let terms = terms_text(alloc, theory, diagram, answer)?;
    Ok(format!(in alloc; "{count} statements for {}", terms.as_str())?)
}

// The text of a unit.
fn unit_text(alloc: Global, unit: &Unit) -> Result<String, CaseFault> {
    match String::from_utf8(write_unit(alloc, unit)?) {
        Ok(text) => Ok(text),
        Err(_) => Err(CaseFault::said(alloc, "no text")),
    }
}
