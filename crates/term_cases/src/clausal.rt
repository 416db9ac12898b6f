//! The calls on clauses and on formulas.

use crate::Done;
use crate::reader::Reader;
use crate::spelling::number;
use crate::writer::{push_clause, push_literals, push_term};
use am_clause::{
    Clause, ClauseFault, clause_variables, clauses_of, exceeds, formula_variables, is_tautology,
    merge, renumber, weight_of,
};
use am_term::{Formula, SortId, Term};
use am_text::Form;

/// A call on a clause.
pub fn clause(out: &mut String, reader: &Reader, call: &str, rest: &[Form]) -> Done {
    let clause = reader.clause(rest)?;
    match call {
        "number" => push_renumbered(out, reader, &clause),
        "merge" => push_merged(out, reader, &clause),
        _ => Ok(write!(out, "{}", is_tautology(&clause))?),
    }
}

/// The weight of a clause up to a number.
pub fn clause_weight(out: &mut String, reader: &Reader, cap: u32, rest: &[Form]) -> Done {
    let clause = reader.clause(rest)?;
    if cap <= 1_000_000 {
        write!(out, "{}", weight_of(&clause, cap))?;
    }
    Ok(())
}

fn push_renumbered(out: &mut String, reader: &Reader, clause: &Clause) -> Done {
    if clause_variables(reader.alloc, clause)?.len() < 4_000_000_000 {
        let made = renumber(reader.alloc, clause)?;
        push_clause(out, reader.sig, &made)?;
    }
    Ok(())
}

fn push_merged(out: &mut String, reader: &Reader, clause: &Clause) -> Done {
    let merged = merge(reader.alloc, clause.literals.as_slice())?;
    push_literals(out, reader.sig, merged.as_slice())
}

/// A call on a formula.
pub fn formula(out: &mut String, reader: &Reader, call: &str, rest: &[Form]) -> Done {
    let [first, more @ ..] = rest else {
        return Ok(());
    };
    let formula = reader.formula(first)?;
    match more {
        [most, ..] => {
            let is = exceeds(reader.alloc, &formula, number(most) as usize)?;
            Ok(write!(out, "{is}")?)
        }
        [] if call == "variables" => push_variables(out, reader, &formula),
        [] => push_clauses(out, reader, &formula),
    }
}

fn push_variables(out: &mut String, reader: &Reader, formula: &Formula) -> Done {
    for (n, sort) in formula_variables(reader.alloc, formula)?.as_slice() {
        out.push(' ')?;
        let variable = Term::Var {
            n: *n,
            sort: SortId(sort.0),
        };
        push_term(out, reader.sig, &variable)?;
    }
    Ok(())
}

// How many clauses there are, and each of them; where they are too many, how many alone.
fn push_clauses(out: &mut String, reader: &Reader, formula: &Formula) -> Done {
    if formula_variables(reader.alloc, formula)?.len() >= 4_000_000_000 {
        return Ok(());
    }
    match clauses_of(reader.alloc, formula) {
        Ok(clauses) => {
            write!(out, "{}", clauses.len())?;
            for clause in clauses.as_slice() {
                out.push(' ')?;
                push_clause(out, reader.sig, clause)?;
            }
        }
        Err(ClauseFault::TooManyClauses(count)) => write!(out, "too many: {count}")?,
        Err(ClauseFault::NoMemory) => out.push_str("no memory")?,
    }
    Ok(())
}
