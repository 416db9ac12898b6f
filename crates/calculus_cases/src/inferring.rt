//! The calls of the rules of inference.

use crate::Done;
use crate::reader::Reader;
use crate::signature::INS;
use crate::spelling::{members, number, word};
use crate::writer::push_made;
use am_clause::{Made, Side};
use am_rules::{close, factor, paramodulate, reflex, resolve, rewrite};
use am_term::{Ctx, NoMemory};
use am_text::Form;
use sqlite_items::Items;

/// Whether a call is that of a rule.
pub fn is_rule(call: &str) -> bool {
    matches!(
        call,
        "factor" | "reflex" | "close" | "resolve" | "para" | "rewrite"
    )
}

/// What a rule makes of clauses, or `none`.
pub fn infer(out: &mut String, reader: &Reader, call: &str, forms: &[Form]) -> Done {
    let ctx = Ctx {
        sig: reader.sig,
        ins: &INS,
    };
    let found = match forms {
        [p] if call == "close" => close(reader.alloc, &ctx, &reader.clause(members(p))?)?,
        [named @ .., p] if call == "factor" || call == "reflex" => {
            by_one(reader, &ctx, named, p)?
        }
        [named @ .., p, q] => by_two(reader, &ctx, named, p, q)?,
        _ => None,
    };
    match found {
        Some(made) => push_made(out, reader.sig, &made),
        None => Ok(out.push_str("none")?),
    }
}

// By literal i, or by literals i and j.
fn by_one(reader: &Reader, ctx: &Ctx, named: &[Form], p: &Form) -> Result<Option<Made>, NoMemory> {
    let p = reader.clause(members(p))?;
    match named {
        [i] => reflex(reader.alloc, ctx, &p, number(i)),
        [i, j] => factor(reader.alloc, ctx, &p, number(i), number(j)),
        _ => Ok(None),
    }
}

// By literals i and j; by a side, literal i and a path, with literal j before them where it isn't the first.
fn by_two(
    reader: &Reader,
    ctx: &Ctx,
    named: &[Form],
    p: &Form,
    q: &Form,
) -> Result<Option<Made>, NoMemory> {
    let alloc = reader.alloc;
    let p = reader.clause(members(p))?;
    let q = reader.clause(members(q))?;
    match named {
        [i, j] => resolve(alloc, ctx, &p, number(i), &q, number(j)),
        [side, i, path] => {
            let path = path_of(reader, path)?;
            rewrite(
                alloc,
                ctx,
                &p,
                side_of(side),
                &q,
                number(i),
                path.as_slice(),
            )
        }
        [j, side, i, path] => {
            let path = path_of(reader, path)?;
            let path = path.as_slice();
            paramodulate(
                alloc,
                ctx,
                &p,
                number(j),
                side_of(side),
                &q,
                number(i),
                path,
            )
        }
        _ => Ok(None),
    }
}

fn side_of(form: &Form) -> Side {
    match word(form) {
        "right" => Side::Right,
        _ => Side::Left,
    }
}

fn path_of(reader: &Reader, form: &Form) -> Result<Items<u32>, NoMemory> {
    let mut path = Items::new(reader.alloc);
    for step in members(form) {
        path.push(number(step))?;
    }
    Ok(path)
}
