//! Pairs of small terms, each unified as terms and over ids, and one whose unifier would be very large as terms.

ghost use Rattle.std.specs.Prelude.{◌≡◌, IfOk, length};

use crate::unify_shared;
use am_bank::{Bank, SharedSubst, TermId};
use am_term::{Ctx, Name, NoMemory, Signature, SortId, SymId, SymKind, Symbol, Term};
use am_unify::{Subst, unify};
use sqlite_items::Items;
use std::alloc::Global;
use std::test::Fail;

const BODY: SortId = SortId(0);

const PLANET: SortId = SortId(1);

const TIME: SortId = SortId(2);

// The symbols: of a body, another of a body, a planet of a body, of two bodies.
const F: u32 = 0;

const G: u32 = 1;

const S: u32 = 2;

const H: u32 = 3;

/// A part of a term of the table.
#[derive(Clone, Copy)]
enum Part {
    Input(u32),
    Variable(u32, SortId),
    // A symbol at an input.
    AtInput(u32, u32),
    // A symbol at a body's variable.
    AtVariable(u32, u32),
}

/// A term of the table.
#[derive(Clone, Copy)]
enum Sample {
    One(Part),
    // A symbol at two parts.
    Two(Part, Part),
}

const X: Part = Part::Variable(0, BODY);

const Y: Part = Part::Variable(1, BODY);

const EARTH: Part = Part::Input(0);

const MARS: Part = Part::Input(1);

const P: Part = Part::Variable(3, PLANET);

// Two terms, and how many variables the most general unifier binds, if there is one.
const ROWS: [(Sample, Sample, Option<usize>); 14] = [
    (Sample::One(X), Sample::One(Y), Some(1)),
    (Sample::One(X), Sample::One(X), Some(0)),
    (Sample::One(X), Sample::One(Part::AtVariable(F, 0)), None),
    (
        Sample::One(Part::AtVariable(F, 0)),
        Sample::One(Part::AtVariable(F, 1)),
        Some(1),
    ),
    (
        Sample::One(Part::AtInput(F, 0)),
        Sample::One(Part::AtInput(G, 0)),
        None,
    ),
    (Sample::Two(X, X), Sample::Two(EARTH, MARS), None),
    (Sample::Two(X, MARS), Sample::Two(MARS, X), Some(1)),
    (
        Sample::Two(Part::AtVariable(F, 0), X),
        Sample::Two(Y, Part::AtVariable(F, 1)),
        None,
    ),
    (Sample::Two(X, Y), Sample::Two(Y, EARTH), Some(2)),
    (Sample::One(P), Sample::One(X), Some(1)),
    (Sample::One(X), Sample::One(P), Some(1)),
    (Sample::One(P), Sample::One(Part::AtInput(F, 0)), None),
    (Sample::One(Y), Sample::One(Part::AtInput(S, 0)), Some(1)),
    (Sample::One(Part::Variable(5, TIME)), Sample::One(X), None),
];

fn at_one(alloc: Global, f: u32, arg: Term) -> Result<Term, NoMemory> {
    let mut args = Items::new(alloc);
    args.push(arg)?;
    Ok(Term::App { f: SymId(f), args })
}

fn at_two(alloc: Global, left: Term, right: Term) -> Result<Term, NoMemory> {
    let mut args = Items::new(alloc);
    args.push(left)?;
    args.push(right)?;
    Ok(Term::App { f: SymId(H), args })
}

fn part_term(alloc: Global, part: Part) -> Result<Term, NoMemory> {
    match part {
        Part::Input(k) => Ok(Term::In { k }),
        Part::Variable(n, sort) => Ok(Term::Var { n, sort }),
        Part::AtInput(f, k) => at_one(alloc, f, Term::In { k }),
        Part::AtVariable(f, n) => at_one(alloc, f, Term::Var { n, sort: BODY }),
    }
}

fn term(alloc: Global, sample: Sample) -> Result<Term, NoMemory> {
    match sample {
        Sample::One(one) => part_term(alloc, one),
        Sample::Two(left, right) => at_two(
            alloc,
            part_term(alloc, left)?,
            part_term(alloc, right)?,
        ),
    }
}

fn symbol(alloc: Global, args: &[SortId], sort: SortId) -> Result<Symbol, NoMemory> {
    Ok(Symbol {
        name: Name::empty(alloc),
        args: Items::from_slice(alloc, args)?,
        result: Some(sort),
        kind: SymKind::Function,
    })
}

fn symbols(alloc: Global) -> Result<Items<Symbol>, NoMemory> {
    let mut made = Items::new(alloc);
    for sort in [BODY, BODY, PLANET] {
        made.push(symbol(alloc, &[BODY], sort)?)?;
    }
    made.push(symbol(alloc, &[BODY, BODY], BODY)?)?;
    Ok(made)
}

fn sorts(alloc: Global) -> Result<Items<Name>, NoMemory>
    ensures { IfOk result (λ names. length names ≡ 3) }
{
    let mut names = Items::new(alloc);
    names.push(Name::empty(alloc))?;
    names.push(Name::empty(alloc))?;
    names.push(Name::empty(alloc))?;
    Ok(names)
}

// A planet is a body.
fn signature(alloc: Global) -> Result<Signature, NoMemory> {
    let symbols = symbols(alloc)?;
    let sorts = sorts(alloc)?;
    let parents = Items::from_slice(alloc, &[None, Some(BODY), None])?;
    Ok(Signature {
        sorts,
        parents,
        symbols,
    })
}

// The unifier of two terms.
fn plain(alloc: Global, left: Sample, right: Sample) -> Result<Option<Subst>, NoMemory> {
    let sig = signature(alloc)?;
    let ctx = Ctx {
        sig: &sig,
        ins: &[BODY, BODY],
    };
    let mut pairs = Items::new(alloc);
    pairs.push((term(alloc, left)?, term(alloc, right)?))?;
    unify(alloc, &ctx, pairs.as_slice())
}

// That of two terms of a bank.
fn shared(
    alloc: Global,
    bank: &mut Bank,
    left: &Term,
    right: &Term,
) -> Result<Option<SharedSubst>, NoMemory> {
    let sig = signature(alloc)?;
    let ctx = Ctx {
        sig: &sig,
        ins: &[BODY, BODY],
    };
    let left = bank.build(alloc, left)?;
    let right = bank.build(alloc, right)?;
    unify_shared(alloc, &ctx, bank, &[(left, right)])
}

// Whether the same numbers are bound, to terms and to their ids.
fn is_same(
    alloc: Global,
    bank: &mut Bank,
    terms: &[(u32, Term)],
    ids: &[(u32, TermId)],
) -> Result<bool, NoMemory> {
    if terms.len() != ids.len() {
        return Ok(false);
    }
    for i in 0..ids.len() {
        let id = bank.build(alloc, &terms[i].1)?;
        if terms[i].0 != ids[i].0 || id != ids[i].1 {
            return Ok(false);
        }
    }
    Ok(true)
}

// Whether both ways bind the same, and so many variables.
fn is_unified(
    alloc: Global,
    left: Sample,
    right: Sample,
    count: Option<usize>,
) -> Result<bool, NoMemory> {
    let mut bank = Bank::new(alloc);
    let found = shared(alloc, &mut bank, &term(alloc, left)?, &term(alloc, right)?)?;
    match (plain(alloc, left, right)?, found) {
        (Some(terms), Some(ids)) => {
            let same = is_same(alloc, &mut bank, terms.0.as_slice(), ids.0.as_slice())?;
            Ok(same && count == Some(ids.0.len()))
        }
        (None, None) => Ok(count.is_none()),
        (Some(_), None) => Ok(false),
        (None, Some(_)) => Ok(false),
    }
}

// A symbol at thirty variables, or at two of the next one for each, from the first to the last or back.
fn tied(alloc: Global, doubled: bool, back: bool) -> Result<Term, NoMemory> {
    let mut args = Items::new(alloc);
    for i in 0..30 {
        let n = if back { 30 - i } else { i + 1 };
        let arg = if doubled {
            let next = Term::Var {
                n: n + 1,
                sort: BODY,
            };
            let same = Term::Var {
                n: n + 1,
                sort: BODY,
            };
            at_two(alloc, next, same)?
        } else {
            Term::Var { n, sort: BODY }
        };
        args.push(arg)?;
    }
    Ok(Term::App { f: SymId(4), args })
}

// How many variables the unifier of both binds, and how many nodes the bank has then. As a tree the term for the
// first variable has 2 ^ 31 - 1 nodes.
fn large(alloc: Global, back: bool) -> Result<(usize, u64), NoMemory> {
    let mut bank = Bank::new(alloc);
    let left = tied(alloc, false, back)?;
    let right = tied(alloc, true, back)?;
    match shared(alloc, &mut bank, &left, &right)? {
        Some(found) => Ok((found.0.len(), bank.len())),
        None => Ok((0, bank.len())),
    }
}

#[test]
fn rows(rt: HostRuntime) -> Result<(), Fail> {
    for (left, right, count) in ROWS {
        assert!(rt; is_unified(rt.alloc(), left, right, count)?);
    }
    Ok(())
}

#[test]
fn shared_parts(rt: HostRuntime) -> Result<(), Fail> {
    for back in [false, true] {
        let (count, len) = large(rt.alloc(), back)?;
        assert!(rt; count == 30);
        assert!(rt; len < 500);
    }
    Ok(())
}
