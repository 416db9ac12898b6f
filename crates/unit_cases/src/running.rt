use crate::fault::CaseFault;
use crate::scene::Scene;
use crate::terms::terms_text;
use crate::texts::unit_of;
use am_exec::{ExecFault, ExecKind, symbolic};
use am_fortran::Unit;
use am_term::NoMemory;
use std::alloc::Global;

/// The terms that a unit of these statements leaves in the outputs.
pub fn run_answer(alloc: Global, scene: &Scene, statements: &str) -> Result<String, CaseFault> {
    let theory = scene.theory(alloc)?;
    let diagram = scene.diagram(alloc, &theory)?;
    let unit = unit_between(alloc, scene.front, statements)?;
    if unit.declarations.len() > 1000 || unit.statements.len() > 1000 {
        return Err(CaseFault::said(alloc, "too long"));
    }
    match symbolic(alloc, &theory, &diagram, &unit) {
        Ok(terms) => Ok(terms_text(alloc, &theory, &diagram, terms.as_slice())?),
        Err(fault) => Ok(fault_text(alloc, fault)?),
    }
}

// The unit of the front, the statements, which ` / ` parts, and an end.
fn unit_between(alloc: Global, front: &str, statements: &str) -> Result<Unit, CaseFault> {
    let mut text = String::from_str(alloc, front)?;
    for statement in statements.split(" / ") {
        if !statement.is_empty() {
            writeln!(text, "      {statement}")?;
        }
    }
    text.push_str("      END\n")?;
    unit_of(alloc, text.as_bytes())
}

fn fault_text(alloc: Global, fault: ExecFault) -> Result<String, NoMemory> {
    let item = fault.item;
    match &fault.kind {
        ExecKind::NotSet(name) => Ok(format!(in alloc; "item {item}: NotSet {}", name.as_str())?),
        kind => Ok(format!(in alloc; "item {item}: {kind:?}")?),
    }
}
