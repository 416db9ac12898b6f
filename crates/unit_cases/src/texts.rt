use crate::fault::CaseFault;
use am_fortran::{Statement, Unit, UnitKind, read_unit, write_unit};
use am_term::NoMemory;
use std::alloc::Global;

/// The unit that a text is, or its fault.
pub fn unit_of(alloc: Global, text: &[u8]) -> Result<Unit, CaseFault> {
    if text.len() > 16777216 {
        return Err(CaseFault::said(alloc, "too long"));
    }
    match read_unit(alloc, text) {
        Ok(unit) => Ok(unit),
        Err(fault) => {
            let words = format!(in alloc; "line {}: {:?}", fault.line, fault.kind)?;
            Err(CaseFault::Said(words))
        }
    }
}

/// The parts of the unit that a text is, and whether it has this text: `S 1, 2 declared, CALL F 2, A = 1, A F 3, ` has
/// the counts of dummies, declarations and operands.
pub fn text_answer(alloc: Global, text: &str) -> Result<String, CaseFault> {
    let unit = unit_of(alloc, text.as_bytes())?;
    let again = write_unit(alloc, &unit)?;
    let is_same = again.as_slice() == text.as_bytes();
    let (name, dummies) = (unit.name.as_str(), unit.dummies.len());
    let declared = unit.declarations.len();
    let mut out = format!(in alloc; "{name} {dummies}, {declared} declared, ")?;
    for statement in unit.statements.as_slice() {
        push_statement(statement, &mut out)?;
    }
    out.push_str(if is_same {
        "the same text"
    } else {
        "another text"
    })?;
    Ok(out)
}

fn push_statement(statement: &Statement, out: &mut String) -> Result<(), NoMemory> {
    let (first, second, count) = match statement {
        Statement::Call { routine, args } => ("CALL", routine.as_str(), args.len()),
        Statement::Assign { target, .. } => (target.as_str(), "=", 1),
        Statement::Apply {
            target,
            function,
            args,
        } => (target.as_str(), function.as_str(), args.len()),
    };
    write!(out, "{first} {second} {count}, ")?;
    Ok(())
}

/// The line at which a text is cut that has so many of its bytes, where it is another than that of one byte less.
pub fn cuts_answer(alloc: Global, text: &str) -> Result<String, CaseFault> {
    let mut out = String::new(alloc);
    let mut last = 0;
    for n in 0..text.len() {
        let (front, _) = text.as_bytes().split_at(n);
        let line = cut_line(alloc, front);
        if line != last {
            write!(out, "{n} bytes are cut at line {line}; ")?;
        }
        last = line;
    }
    Ok(out)
}

// The line at which a text is cut, else 0.
fn cut_line(alloc: Global, text: &[u8]) -> u32 {
    if text.len() > 16777216 {
        return 0;
    }
    match read_unit(alloc, text) {
        Err(fault) if fault.kind == UnitKind::Cut => fault.line,
        _ => 0,
    }
}
