//! The calls on pairs of terms: sameness, the order, matching and unification.

use crate::Done;
use crate::reader::Reader;
use crate::signature::INS;
use crate::spelling::members;
use crate::writer::push_term;
use am_order::{greater, greater_plain, orient};
use am_term::{Ctx, NoMemory, Signature, Term, same};
use am_text::Form;
use am_unify::{Subst, matches, unify};
use sqlite_items::Items;

/// A call on two terms.
pub fn two(out: &mut String, reader: &Reader, call: &str, rest: &[Form]) -> Done {
    let [first, second] = rest else {
        return Ok(());
    };
    let first = reader.term(first)?;
    let second = reader.term(second)?;
    match call {
        "match" => push_match(out, reader, &first, &second),
        "order" => push_order(out, reader.sig, &first, &second),
        "orient" => Ok(write!(out, "{:?}", orient(reader.sig, &first, &second))?),
        _ => Ok(write!(out, "{}", same(&first, &second))?),
    }
}

fn push_match(out: &mut String, reader: &Reader, pattern: &Term, whole: &Term) -> Done {
    let ctx = Ctx {
        sig: reader.sig,
        ins: &INS,
    };
    let found = matches(reader.alloc, &ctx, pattern, whole)?;
    push_bindings(out, reader.sig, &found)
}

// Which side is greater, here and with the sides turned; and so by each of the two tests.
fn push_order(out: &mut String, sig: &Signature, s: &Term, t: &Term) -> Done {
    write!(out, "{:?} {:?}", orient(sig, s, t), orient(sig, t, s))?;
    write!(out, " {} {}", greater(sig, s, t), greater(sig, t, s))?;
    write!(
        out,
        " {} {}",
        greater_plain(sig, s, t),
        greater_plain(sig, t, s)
    )?;
    Ok(())
}

// The bindings, each in parentheses, or that there are none.
fn push_bindings(out: &mut String, sig: &Signature, found: &Option<Subst>) -> Done {
    let Some(found) = found else {
        return Ok(out.push_str("none")?);
    };
    out.push_str("bound")?;
    for (n, term) in found.0.as_slice() {
        write!(out, " ({n} ")?;
        push_term(out, sig, term)?;
        out.push(')')?;
    }
    Ok(())
}

fn solved(reader: &Reader, forms: &[Form]) -> Result<Option<Subst>, NoMemory> {
    let mut pairs = Items::new(reader.alloc);
    for form in forms {
        if let [left, right] = members(form) {
            pairs.push((reader.term(left)?, reader.term(right)?))?;
        }
    }
    let ctx = Ctx {
        sig: reader.sig,
        ins: &INS,
    };
    unify(reader.alloc, &ctx, pairs.as_slice())
}

/// The unifier of a list of pairs.
pub fn unifier(out: &mut String, reader: &Reader, pairs: &[Form]) -> Done {
    push_bindings(out, reader.sig, &solved(reader, pairs)?)
}

/// How many bindings the unifier of a list of pairs has, and whether the variable of this number has the
/// term as its own.
pub fn bound(out: &mut String, reader: &Reader, number: u32, rest: &[Form]) -> Done {
    let [term, pairs] = rest else {
        return Ok(());
    };
    let term = reader.term(term)?;
    if let Some(found) = solved(reader, members(pairs))? {
        let bindings = found.0.as_slice();
        let is = bindings
            .iter()
            .any(|binding| binding.0 == number && same(&binding.1, &term));
        write!(out, "{} {is}", bindings.len())?;
    }
    Ok(())
}
