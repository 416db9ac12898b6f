//! Pairs of small terms, each with its answer. They are ordered over a signature without symbols: there the
//! later symbol stands above the earlier one. They are matched over one with three sorts and a symbol.

ghost use Rattle.std.specs.Prelude.{◌≡◌, ◌<◌, ◌≤◌, IfOk, length};

use crate::{greater_shared, matches_shared, matches_tabled, orient_shared};
use am_bank::{Bank, Node, SharedSubst, TermId};
use am_order::Oriented;
use am_term::{Ctx, Name, NoMemory, Signature, SortId, SymId, SymKind, Symbol, Term};
use sqlite_items::Items;
use std::alloc::Global;
use std::test::Fail;

/// A term of the table.
#[derive(Clone, Copy)]
enum Sample {
    Input(u32),
    Variable(u32),
    // A variable of this sort.
    VariableOf(u32, u32),
    // A symbol at an input.
    AtInput(u32, u32),
    // A symbol at two inputs.
    AtInputs(u32, u32, u32),
    // A symbol at two variables.
    AtVariables(u32, u32, u32),
}

const ROWS: [(Sample, Sample, Oriented); 8] = [
    (Sample::Input(1), Sample::Input(0), Oriented::Left),
    (Sample::Input(0), Sample::Input(1), Oriented::Right),
    (Sample::Input(0), Sample::Input(0), Oriented::Neither),
    (Sample::AtInput(0, 0), Sample::Input(7), Oriented::Left),
    (
        Sample::AtInput(0, 7),
        Sample::AtInput(1, 0),
        Oriented::Right,
    ),
    (Sample::AtInput(3, 1), Sample::AtInput(3, 0), Oriented::Left),
    (
        Sample::Variable(0),
        Sample::AtVariables(2, 0, 0),
        Oriented::Right,
    ),
    (
        Sample::Variable(1),
        Sample::AtVariables(2, 0, 0),
        Oriented::Neither,
    ),
];

/// What matching answers.
#[derive(Clone, Copy)]
enum Answer {
    Unmatched,
    Unbound,
    One(u32, Sample),
    Two(u32, Sample, u32, Sample),
}

// The inputs have the sorts 1, 2 and 1; sort 1 stands below sort 0, and symbol 0 takes two of sort 0.
const MATCHES: [(Sample, Sample, Answer); 18] = [
    // A variable that stands twice meets equal terms and unequal ones.
    (
        Sample::AtVariables(0, 5, 5),
        Sample::AtInputs(0, 2, 2),
        Answer::One(5, Sample::Input(2)),
    ),
    (
        Sample::AtVariables(0, 5, 5),
        Sample::AtInputs(0, 0, 2),
        Answer::Unmatched,
    ),
    // Inputs.
    (Sample::Input(0), Sample::Input(0), Answer::Unbound),
    (Sample::Input(0), Sample::Input(2), Answer::Unmatched),
    (Sample::Input(0), Sample::AtInput(0, 0), Answer::Unmatched),
    (Sample::AtInput(0, 0), Sample::Input(0), Answer::Unmatched),
    (
        Sample::AtInput(0, 0),
        Sample::Variable(0),
        Answer::Unmatched,
    ),
    // A sort that fits, one that doesn't, and terms without one.
    (
        Sample::Variable(0),
        Sample::Input(0),
        Answer::One(0, Sample::Input(0)),
    ),
    (Sample::Variable(0), Sample::Input(1), Answer::Unmatched),
    (
        Sample::Variable(0),
        Sample::AtInputs(0, 0, 2),
        Answer::One(0, Sample::AtInputs(0, 0, 2)),
    ),
    (
        Sample::VariableOf(0, 1),
        Sample::AtInputs(0, 0, 2),
        Answer::Unmatched,
    ),
    (
        Sample::Variable(0),
        Sample::AtInputs(0, 0, 1),
        Answer::Unmatched,
    ),
    (
        Sample::Variable(0),
        Sample::AtInput(0, 0),
        Answer::Unmatched,
    ),
    // Unlike symbols, and unlike counts of arguments.
    (
        Sample::AtVariables(0, 5, 5),
        Sample::AtInputs(1, 2, 2),
        Answer::Unmatched,
    ),
    (
        Sample::AtInput(0, 2),
        Sample::AtInputs(0, 2, 2),
        Answer::Unmatched,
    ),
    // A pattern that is the term.
    (
        Sample::AtInputs(0, 0, 2),
        Sample::AtInputs(0, 0, 2),
        Answer::Unbound,
    ),
    (
        Sample::AtVariables(0, 5, 5),
        Sample::AtVariables(0, 5, 5),
        Answer::One(5, Sample::Variable(5)),
    ),
    // Bindings stand in order of the numbers.
    (
        Sample::AtVariables(0, 7, 5),
        Sample::AtInputs(0, 0, 2),
        Answer::Two(5, Sample::Input(2), 7, Sample::Input(0)),
    ),
];

fn variable(n: u32) -> Term {
    Term::Var { n, sort: SortId(0) }
}

fn term(alloc: Global, sample: Sample) -> Result<Term, NoMemory> {
    let mut args = Items::new(alloc);
    match sample {
        Sample::Input(k) => Ok(Term::In { k }),
        Sample::Variable(n) => Ok(variable(n)),
        Sample::VariableOf(n, sort) => Ok(Term::Var {
            n,
            sort: SortId(sort),
        }),
        Sample::AtInput(f, k) => {
            args.push(Term::In { k })?;
            Ok(Term::App { f: SymId(f), args })
        }
        Sample::AtInputs(f, j, k) => {
            args.push(Term::In { k: j })?;
            args.push(Term::In { k })?;
            Ok(Term::App { f: SymId(f), args })
        }
        Sample::AtVariables(f, n, m) => {
            args.push(variable(n))?;
            args.push(variable(m))?;
            Ok(Term::App { f: SymId(f), args })
        }
    }
}

fn signature(alloc: Global) -> Signature {
    Signature {
        sorts: Items::new(alloc),
        parents: Items::new(alloc),
        symbols: Items::new(alloc),
    }
}

fn sort_names(alloc: Global) -> Result<Items<Name>, NoMemory>
    ensures { IfOk result (λ names. length names ≡ 3) }
{
    let mut names = Items::new(alloc);
    names.push(Name::new(alloc, "place")?)?;
    names.push(Name::new(alloc, "planet")?)?;
    names.push(Name::new(alloc, "time")?)?;
    Ok(names)
}

fn symbols(alloc: Global) -> Result<Items<Symbol>, NoMemory> {
    let name = Name::new(alloc, "middle")?;
    let args = Items::from_slice(alloc, &[SortId(0), SortId(0)])?;
    let middle = Symbol {
        name,
        args,
        result: Some(SortId(0)),
        kind: SymKind::Function,
    };
    let mut symbols = Items::new(alloc);
    symbols.push(middle)?;
    Ok(symbols)
}

fn sorted_signature(alloc: Global) -> Result<Signature, NoMemory> {
    let symbols = symbols(alloc)?;
    let sorts = sort_names(alloc)?;
    let parents = Items::from_slice(alloc, &[None, Some(SortId(0)), None])?;
    Ok(Signature {
        sorts,
        parents,
        symbols,
    })
}

// Whether the two terms are oriented so, and the left one is greater just where that says so.
fn is_answered(
    alloc: Global,
    left: Sample,
    right: Sample,
    oriented: Oriented,
) -> Result<bool, NoMemory> {
    let sig = signature(alloc);
    let mut bank = Bank::new(alloc);
    let left = bank.build(alloc, &term(alloc, left)?)?;
    let right = bank.build(alloc, &term(alloc, right)?)?;
    let greater = greater_shared(&sig, &bank, left, right);
    let answer = orient_shared(&sig, &bank, left, right);
    Ok(answer == oriented && greater == (oriented == Oriented::Left))
}

// What matching the two terms answers, in a bank that has both.
fn matched(
    alloc: Global,
    bank: &mut Bank,
    pattern: Sample,
    other: Sample,
) -> Result<Option<SharedSubst>, NoMemory> {
    let sig = sorted_signature(alloc)?;
    let ins = [SortId(1), SortId(2), SortId(1)];
    let pattern = bank.build(alloc, &term(alloc, pattern)?)?;
    let other = bank.build(alloc, &term(alloc, other)?)?;
    let ctx = Ctx {
        sig: &sig,
        ins: &ins,
    };
    matches_shared(alloc, &ctx, bank, pattern, other)
}

// Whether the pair at this place has this number and the id of this term.
fn is_bound(
    alloc: Global,
    bank: &mut Bank,
    found: &[(u32, TermId)],
    at: usize,
    n: u32,
    sample: Sample,
) -> Result<bool, NoMemory> {
    let id = bank.build(alloc, &term(alloc, sample)?)?;
    match found.get(at) {
        Some(pair) => Ok(pair.0 == n && pair.1 == id),
        None => Ok(false),
    }
}

// Whether the pairs are these.
fn are_bound(
    alloc: Global,
    bank: &mut Bank,
    found: &[(u32, TermId)],
    answer: Answer,
) -> Result<bool, NoMemory> {
    match answer {
        Answer::Unmatched => Ok(false),
        Answer::Unbound => Ok(found.is_empty()),
        Answer::One(n, sample) => {
            let first = is_bound(alloc, bank, found, 0, n, sample)?;
            Ok(first && found.len() == 1)
        }
        Answer::Two(n, sample, m, other) => {
            let first = is_bound(alloc, bank, found, 0, n, sample)?;
            let second = is_bound(alloc, bank, found, 1, m, other)?;
            Ok(first && second && found.len() == 2)
        }
    }
}

// Whether matching the two terms answers this.
fn is_matched(
    alloc: Global,
    pattern: Sample,
    other: Sample,
    answer: Answer,
) -> Result<bool, NoMemory> {
    let mut bank = Bank::new(alloc);
    match matched(alloc, &mut bank, pattern, other)? {
        Some(found) => are_bound(alloc, &mut bank, found.0.as_slice(), answer),
        None => Ok(matches!(answer, Answer::Unmatched)),
    }
}

// A symbol at a term and the same term again.
#[tactic(auto, using(crate::proofs::Twice::doubling))]
fn doubled(alloc: Global, bank: &mut Bank, id: TermId) -> Result<TermId, NoMemory>
    requires { id.0 < length bank.old }
    ensures within { IfOk result (λ d. d.0 < length bank.new) }
    ensures longer { length bank.old ≤ length bank.new }
{
    let mut args = Vec::new(alloc);
    args.push(id)?;
    args.push(id)?;
    let id = bank.intern(Node::App { f: SymId(0), args })?;
    Ok(id)
}

// A term that shares all its parts, of which this is the least, and would have 2 ^ 41 - 1 nodes if it didn't.
fn deep(alloc: Global, bank: &mut Bank, least: &Term) -> Result<TermId, NoMemory>
    ensures within { IfOk result (λ d. d.0 < length bank.new) }
    ensures longer { length bank.old ≤ length bank.new }
{
    let mut id = bank.build(alloc, least)?;
    for _level in 0..40 {
        id = doubled(alloc, bank, id)?;
    }
    Ok(id)
}

// How many sorts a table has once a variable was matched with the deep term, and matched again, and whether it
// was bound to that term.
fn sorts_of_deep(alloc: Global) -> Result<(usize, bool), NoMemory> {
    let sig = sorted_signature(alloc)?;
    let ins = [SortId(1)];
    let mut bank = Bank::new(alloc);
    let term = deep(alloc, &mut bank, &Term::In { k: 0 })?;
    let pattern = bank.build(alloc, &variable(0))?;
    let ctx = Ctx {
        sig: &sig,
        ins: &ins,
    };
    let mut table = Items::new(alloc);
    matches_tabled(alloc, &ctx, &bank, &mut table, pattern, term)?;
    let found = matches_tabled(alloc, &ctx, &bank, &mut table, pattern, term)?;
    Ok((table.len(), is_one(&found, term)))
}

// Whether a pattern that shares all its parts, of which a variable is the least, is matched with a term of its shape,
// and the variable is bound to the term's least part.
fn is_deep_matched(alloc: Global) -> Result<bool, NoMemory> {
    let sig = sorted_signature(alloc)?;
    let ins = [SortId(1)];
    let mut bank = Bank::new(alloc);
    let pattern = deep(alloc, &mut bank, &variable(0))?;
    let term = deep(alloc, &mut bank, &Term::In { k: 0 })?;
    let least = bank.build(alloc, &Term::In { k: 0 })?;
    let ctx = Ctx {
        sig: &sig,
        ins: &ins,
    };
    let found = matches_shared(alloc, &ctx, &bank, pattern, term)?;
    Ok(is_one(&found, least))
}

// Whether variable 0 alone is bound, to this id.
fn is_one(found: &Option<SharedSubst>, id: TermId) -> bool {
    match found {
        Some(found) => match found.0.as_slice() {
            [pair] => pair.0 == 0 && pair.1 == id,
            _ => false,
        },
        None => false,
    }
}

#[test]
fn shared_parts(rt: HostRuntime) -> Result<(), Fail> {
    let (sorts, bound) = sorts_of_deep(rt.alloc())?;
    assert!(rt; bound);
    assert!(rt; sorts == 41);
    assert!(rt; is_deep_matched(rt.alloc())?);
    Ok(())
}

#[test]
fn matches(rt: HostRuntime) -> Result<(), Fail> {
    for (pattern, other, answer) in MATCHES {
        assert!(rt; is_matched(rt.alloc(), pattern, other, answer)?);
    }
    Ok(())
}

#[test]
fn rows(rt: HostRuntime) -> Result<(), Fail> {
    for (left, right, oriented) in ROWS {
        assert!(rt; is_answered(rt.alloc(), left, right, oriented)?);
    }
    Ok(())
}
