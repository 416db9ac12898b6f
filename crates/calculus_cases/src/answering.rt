//! The calls: of rules, of rewriting and of dropping.

use crate::Done;
use crate::inferring::{infer, is_rule};
use crate::reader::Reader;
use crate::signature::INS;
use crate::spelling::{members, number, word};
use crate::writer::push_made;
use am_clause::{Clause, Side};
use am_simplify::{Matcher, Reason, Rewriter, StepRule, drop_reason, own_reason, places, too_big};
use am_term::{Ctx, NoMemory, Signature, Term};
use am_text::Form;
use sqlite_items::Items;
use std::alloc::Global;

type Row = (u32, Clause);

/// The answer to a case, with the rows before it.
pub fn answer(
    alloc: Global,
    sig: &Signature,
    rows: &[Row],
    forms: &[Form],
) -> Result<String, NoMemory> {
    let reader = Reader { alloc, sig };
    let mut out = String::new(alloc);
    match forms {
        [call, rest @ ..] if is_rule(word(call)) => infer(&mut out, &reader, word(call), rest)?,
        [call, form] if word(call) == "step" => step(&mut out, &reader, rows, form)?,
        [call, form] if word(call) == "places" => literal_places(&mut out, &reader, form)?,
        [call, d, c] if word(call) == "subsumes" => subsumption(&mut out, &reader, d, c)?,
        [call, limit, form, lists @ ..] => {
            reason(
                &mut out,
                &reader,
                rows,
                word(call),
                number(limit),
                form,
                lists,
            )?
        }
        _ => out.push_str("no case")?,
    }
    Ok(out)
}

// The next step of a clause by the rows.
fn step(out: &mut String, reader: &Reader, rows: &[Row], form: &Form) -> Done {
    let ctx = Ctx {
        sig: reader.sig,
        ins: &INS,
    };
    let mut rewriter = Rewriter::new(reader.alloc);
    for row in rows {
        rewriter.add(reader.alloc, &ctx, row.0, &row.1)?;
    }
    let clause = reader.clause(members(form))?;
    match rewriter.step(reader.alloc, &ctx, &clause)? {
        Some(step) => {
            push_rule(out, &step.rule)?;
            push_made(out, reader.sig, &step.made)
        }
        None => Ok(out.push_str("normal")?),
    }
}

fn push_rule(out: &mut String, rule: &StepRule) -> Done {
    match rule {
        StepRule::Reflex { i } => Ok(write!(out, "reflex {i} ")?),
        StepRule::Rewrite { row, side, i, path } => {
            let side = match side {
                Side::Left => "left",
                Side::Right => "right",
            };
            write!(out, "rewrite {row} {side} {i} ")?;
            push_path(out, path.as_slice())?;
            Ok(out.push(' ')?)
        }
    }
}

fn push_path(out: &mut String, path: &[u32]) -> Done {
    out.push('(')?;
    for (i, step) in path.iter().enumerate() {
        if i > 0 {
            out.push(' ')?;
        }
        write!(out, "{step}")?;
    }
    Ok(out.push(')')?)
}

// The places of a literal that aren't variables.
fn literal_places(out: &mut String, reader: &Reader, form: &Form) -> Done {
    let literal = reader.literal(form)?;
    let paths = places(reader.alloc, &literal.atom)?;
    if paths.is_empty() {
        out.push_str("none")?;
    }
    for path in paths.as_slice() {
        push_path(out, path.as_slice())?;
    }
    Ok(())
}

// Whether the first clause subsumes the second.
fn subsumption(out: &mut String, reader: &Reader, d: &Form, c: &Form) -> Done {
    let ctx = Ctx {
        sig: reader.sig,
        ins: &INS,
    };
    let d = reader.clause(members(d))?;
    let c = reader.clause(members(c))?;
    let is = Matcher::new(reader.alloc)?.subsumes(&ctx, &d, &c);
    Ok(write!(out, "{is}")?)
}

// Why a clause with some lists of terms is dropped beside the rows.
fn reason(
    out: &mut String,
    reader: &Reader,
    rows: &[Row],
    call: &str,
    limit: u32,
    form: &Form,
    lists: &[Form],
) -> Done {
    let ctx = Ctx {
        sig: reader.sig,
        ins: &INS,
    };
    let clause = reader.clause(members(form))?;
    let with = lists_of(reader, lists)?;
    if limit > 1_000_000 {
        return Ok(());
    }
    let found = match call {
        "reason" => drop_reason(reader.alloc, &ctx, limit, rows, &clause, with.as_slice())?,
        "own" => own_reason(reader.alloc, &ctx, limit, &clause, with.as_slice())?,
        _ => too_big(limit, &clause, with.as_slice()),
    };
    push_reason(out, found)
}

fn lists_of(reader: &Reader, forms: &[Form]) -> Result<Items<Items<Term>>, NoMemory> {
    let mut lists = Items::new(reader.alloc);
    for form in forms {
        lists.push(reader.terms(members(form))?)?;
    }
    Ok(lists)
}

fn push_reason(out: &mut String, reason: Option<Reason>) -> Done {
    match reason {
        None => Ok(out.push_str("kept")?),
        Some(Reason::Tautology) => Ok(out.push_str("tautology")?),
        Some(Reason::Wide) => Ok(out.push_str("wide")?),
        Some(Reason::Heavy) => Ok(out.push_str("heavy")?),
        Some(Reason::AnswerNotComputable) => Ok(out.push_str("answer not computable")?),
        Some(Reason::OpenAnswer) => Ok(out.push_str("open answer")?),
        Some(Reason::Subsumed(row)) => Ok(write!(out, "subsumed by {row}")?),
    }
}
