//! The calls on sorts, terms and atoms.

use crate::Done;
use crate::clausal::{clause, clause_weight, formula};
use crate::reader::Reader;
use crate::signature::{INS, sort_name, sort_named};
use crate::solving::{bound, two, unifier};
use crate::spelling::{members, number, word};
use crate::writer::{push_literal, push_term, push_terms};
use am_term::{
    Ctx, Literal, NoMemory, Signature, SortId, Term, akin, at, copies, copy, copy_atom,
    copy_literal, fits, is_covered, put_at, same_atom, same_literal, same_terms, subst, weight,
    well_sorted,
};
use am_text::Form;
use sqlite_items::Items;
use std::alloc::Global;

/// The answer to a case.
pub fn answer(alloc: Global, sig: &Signature, forms: &[Form]) -> Result<String, NoMemory> {
    let reader = Reader { alloc, sig };
    let mut out = String::new(alloc);
    match forms {
        [kind, call, rest @ ..] => answer_kind(&mut out, &reader, word(kind), call, rest)?,
        _ => out.push_str("no case")?,
    }
    Ok(out)
}

fn answer_kind(out: &mut String, reader: &Reader, kind: &str, call: &Form, rest: &[Form]) -> Done {
    match kind {
        "sorts" => sorts(out, reader, word(call), rest),
        "term" => term(out, reader, word(call), rest),
        "terms" => terms(out, reader, word(call), rest),
        "atoms" => atoms(out, reader, word(call), rest),
        "two" => two(out, reader, word(call), rest),
        "clause" => clause(out, reader, word(call), rest),
        "weight" => clause_weight(out, reader, number(call), rest),
        "formula" => formula(out, reader, word(call), rest),
        "unify" => unifier(out, reader, members(call)),
        "bound" => bound(out, reader, number(call), rest),
        _ => Ok(out.push_str("no call")?),
    }
}

// Whether one sort fits another, or is akin to it.
fn sorts(out: &mut String, reader: &Reader, call: &str, rest: &[Form]) -> Done {
    if let [s, t] = rest {
        let (s, t) = (sort_named(word(s)), sort_named(word(t)));
        let is = match call {
            "akin" => akin(reader.sig, s, t),
            _ => fits(reader.sig, s, t),
        };
        write!(out, "{is}")?;
    }
    Ok(())
}

// A call on a term, with what stands behind the term.
fn term(out: &mut String, reader: &Reader, call: &str, rest: &[Form]) -> Done {
    let [first, more @ ..] = rest else {
        return Ok(());
    };
    let term = reader.term(first)?;
    match call {
        "copy" => push_term(out, reader.sig, &copy(reader.alloc, &term)?),
        "sort" => push_sort(out, reader.sig, &term),
        "at" | "put" => place(out, reader, &term, more),
        "instance" => instance(out, reader, &term, more),
        _ => sized(out, call, &term, more),
    }
}

fn push_sort(out: &mut String, sig: &Signature, term: &Term) -> Done {
    match well_sorted(&Ctx { sig, ins: &INS }, term) {
        Some(SortId(sort)) => Ok(out.push_str(sort_name(SortId(sort)))?),
        None => Ok(out.push_str("none")?),
    }
}

// The weight of a term up to a number, or whether so many terms cover it.
fn sized(out: &mut String, call: &str, term: &Term, rest: &[Form]) -> Done {
    for size in rest {
        let size = number(size);
        if call == "covered" {
            write!(out, "{}", is_covered(term, size as usize))?;
        } else if size <= 1_000_000 {
            write!(out, "{}", weight(term, size))?;
        }
    }
    Ok(())
}

// The part at a path, or the term with another part there.
fn place(out: &mut String, reader: &Reader, term: &Term, rest: &[Form]) -> Done {
    let [steps, new @ ..] = rest else {
        return Ok(());
    };
    let mut path = Vec::new(reader.alloc);
    for step in members(steps) {
        path.push(number(step))?;
    }
    if let [new] = new {
        let new = reader.term(new)?;
        return push_found(out, reader.sig, &put_at(reader.alloc, term, &path, &new)?);
    }
    match at(term, &path) {
        Some(part) => push_term(out, reader.sig, part),
        None => Ok(out.push_str("none")?),
    }
}

fn push_found(out: &mut String, sig: &Signature, found: &Option<Term>) -> Done {
    match found {
        Some(term) => push_term(out, sig, term),
        None => Ok(out.push_str("none")?),
    }
}

// The instance of a term by a list of terms.
fn instance(out: &mut String, reader: &Reader, term: &Term, rest: &[Form]) -> Done {
    for list in rest {
        let with = reader.terms(members(list))?;
        if is_covered(term, with.len()) {
            let made = subst(reader.alloc, term, with.as_slice())?;
            push_term(out, reader.sig, &made)?;
        }
    }
    Ok(())
}

// A call on two lists of terms.
fn terms(out: &mut String, reader: &Reader, call: &str, rest: &[Form]) -> Done {
    let [first, second] = rest else {
        return Ok(());
    };
    let first = reader.terms(members(first))?;
    let second = reader.terms(members(second))?;
    if call == "copies" {
        let made: Items<Term> = copies(reader.alloc, first.as_slice())?;
        return push_terms(out, reader.sig, made.as_slice());
    }
    Ok(write!(out, "{}", same_terms(first.as_slice(), second.as_slice()))?)
}

// A call on two literals.
fn atoms(out: &mut String, reader: &Reader, call: &str, rest: &[Form]) -> Done {
    let [first, second] = rest else {
        return Ok(());
    };
    let first = reader.literal(first)?;
    let second = reader.literal(second)?;
    match call {
        "copy" => push_copies(out, reader, &first, &second),
        "same-atoms" => Ok(write!(out, "{}", same_atom(&first.atom, &second.atom))?),
        _ => Ok(write!(out, "{}", same_literal(&first, &second))?),
    }
}

// A copy of a literal, and one of another's atom.
fn push_copies(out: &mut String, reader: &Reader, first: &Literal, second: &Literal) -> Done {
    push_literal(out, reader.sig, &copy_literal(reader.alloc, first)?)?;
    out.push(' ')?;
    let copied = Literal {
        positive: true,
        atom: copy_atom(reader.alloc, &second.atom)?,
    };
    push_literal(out, reader.sig, &copied)
}
