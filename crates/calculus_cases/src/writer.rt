//! Terms, literals and clauses as the reader takes them.

use crate::Done;
use crate::signature::{sort_name, symbol_name};
use am_clause::{Clause, Made};
use am_term::{Atom, Literal, Signature, SymId, Term};

/// A term.
#[cycle(writing)]
pub fn push_term(out: &mut String, sig: &Signature, term: &Term) -> Done {
    match term {
        Term::Var { n, sort } => Ok(write!(out, "{}?{n}", sort_name(*sort))?),
        Term::In { k } => Ok(write!(out, "in?{k}")?),
        Term::App { f, args } => push_applied(out, sig, *f, args.as_slice()),
    }
}

#[cycle(writing)]
fn push_applied(out: &mut String, sig: &Signature, symbol: SymId, args: &[Term]) -> Done {
    let name = symbol_name(sig, symbol);
    if args.is_empty() {
        return Ok(out.push_str(name)?);
    }
    out.push('(')?;
    out.push_str(name)?;
    push_terms(out, sig, args)?;
    Ok(out.push(')')?)
}

/// The terms, a blank before each.
#[cycle(writing)]
pub fn push_terms(out: &mut String, sig: &Signature, terms: &[Term]) -> Done {
    for term in terms {
        out.push(' ')?;
        push_term(out, sig, term)?;
    }
    Ok(())
}

/// An atom.
pub fn push_atom(out: &mut String, sig: &Signature, atom: &Atom) -> Done {
    match atom {
        Atom::Rel { r, args } => push_applied(out, sig, *r, args.as_slice()),
        Atom::Eq { left, right } => {
            out.push_str("(= ")?;
            push_term(out, sig, left)?;
            out.push(' ')?;
            push_term(out, sig, right)?;
            Ok(out.push(')')?)
        }
    }
}

/// A literal.
pub fn push_literal(out: &mut String, sig: &Signature, literal: &Literal) -> Done {
    if literal.positive {
        return push_atom(out, sig, &literal.atom);
    }
    out.push_str("(not ")?;
    push_atom(out, sig, &literal.atom)?;
    Ok(out.push(')')?)
}

/// The literals in parentheses.
pub fn push_literals(out: &mut String, sig: &Signature, literals: &[Literal]) -> Done {
    out.push('(')?;
    for (i, literal) in literals.iter().enumerate() {
        if i > 0 {
            out.push(' ')?;
        }
        push_literal(out, sig, literal)?;
    }
    Ok(out.push(')')?)
}

/// The literals in parentheses, and behind them the terms of the answer, if there is one.
pub fn push_clause(out: &mut String, sig: &Signature, clause: &Clause) -> Done {
    push_literals(out, sig, clause.literals.as_slice())?;
    if let Some(answer) = &clause.answer {
        push_terms(out, sig, answer.as_slice())?;
    }
    Ok(())
}

/// The clause, and behind it each list of terms.
pub fn push_made(out: &mut String, sig: &Signature, made: &Made) -> Done {
    push_clause(out, sig, &made.clause)?;
    for list in made.with.as_slice() {
        out.push_str(" with")?;
        push_terms(out, sig, list.as_slice())?;
    }
    Ok(())
}
