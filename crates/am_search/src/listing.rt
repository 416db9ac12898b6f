//! The inferences of a turn that are tried, listed in order.
ghost use Rattle.std.specs.Prelude.{IfOk, OnOk, ◌≡◌, ◌++◌, find, map};
ghost use Rattle.std.specs.List.{flat_map};
ghost use Rattle.am_search.specs.Candidates.{candidates_alone as is_alone, candidates_between as is_between, eligible_in, factors as all_factors, factors_at, is_negative, is_relation_atom as is_no_equation, is_source as may_go_from, paras as all_paras, paras_at, paras_into, paras_side, reflexes as all_reflexes, resolves as all_resolves, resolves_at, para_sides as sides_from, that_or_all};
ghost use Rattle.am_simplify.specs.Numbering.{with_numbers};
ghost use Rattle.am_term.specs.Variables.{is_variable as is_a_variable};

use crate::candidate::{Candidate, Way};
use crate::rows::after;
use crate::source::Source;
use am_clause::Side;
use am_order::greater;
use am_simplify::places;
use am_term::{Atom, Literal, NoMemory, Signature, Term};
use sqlite_items::Items;
use std::alloc::Global;
use std::collections::VecDeque;

// Neighbours among the literals of a clause, the first of which has a number.
#[derive(Clone, Copy)]
struct Part<'a> {
    first: u32,
    literals: &'a [Literal],
}

/// What a row is tried with alone: factors, then reflexes.
#[tactic(auto, unfolding(crate::specs::Candidates::candidates_alone))]
pub fn alone(alloc: Global, g: &Source) -> Result<VecDeque<Candidate>, NoMemory>
    ensures { IfOk result (λ cs. cs.items ≡ is_alone g.now) }
{
    let mut found = VecDeque::new(alloc);
    let part = eligible(g)?;
    let all = g.clause().literals.as_slice();
    add_factors(&mut found, part.first, part.literals, all)?;
    add_reflexes(&mut found, part.first, part.literals)?;
    Ok(found)
}

/// What a row is tried with a partner: resolves, then paras from the partner, then, to another row, paras into it.
#[tactic(auto, unfolding(crate::specs::Candidates::candidates_between))]
pub fn between(
    alloc: Global,
    sig: &Signature,
    g: &Source,
    p: &Source,
) -> Result<VecDeque<Candidate>, NoMemory>
    ensures { IfOk result (λ cs. cs.items ≡ is_between sig.now g.now p.now) }
{
    let mut found = VecDeque::new(alloc);
    let own = eligible(g)?;
    let other = eligible(p)?;
    add_resolves(
        &mut found,
        own.first,
        own.literals,
        other.first,
        other.literals,
    )?;
    add_paras(alloc, &mut found, sig, Way::Inward, other, own)?;
    if p.number() != g.number() {
        add_paras(alloc, &mut found, sig, Way::Outward, own, other)?;
    }
    Ok(found)
}

// The literals that inferences may use.
fn eligible<'a>(p: &Source<'a>) -> Result<Part<'a>, NoMemory>
    ensures { IfOk result (λ part. with_numbers part.first part.literals.now ≡ eligible_in p.now) }
{
    let literals = p.clause().literals.as_slice();
    if p.axiom_row() {
        return Ok(Part { first: 1, literals });
    }
    first_negative(literals)
}

fn first_negative(literals: &[Literal]) -> Result<Part, NoMemory>
    ensures { IfOk result (λ part. with_numbers part.first part.literals.now ≡ that_or_all
        (find is_negative (with_numbers 1 literals.now)) (with_numbers 1 literals.now)) }
{
    let mut rest = literals;
    let mut n: u32 = 1;
    while let [literal, behind @ ..] = rest {
        if !literal.positive {
            return Ok(Part {
                first: n,
                literals: &rest[..1],
            });
        }
        n = after(n)?;
        rest = behind;
    }
    Ok(Part { first: 1, literals })
}

fn is_relation(atom: &Atom) -> bool
    ensures { result ≡ is_no_equation atom.now }
{
    match atom {
        Atom::Rel { .. } => true,
        Atom::Eq { .. } => false,
    }
}

fn add_factors(
    out: &mut VecDeque<Candidate>,
    first: u32,
    literals: &[Literal],
    all: &[Literal],
) -> Result<(), NoMemory>
    ensures { OnOk result (out.new.items ≡ out.old.items ++ all_factors (with_numbers 1 all.now)
        (with_numbers first literals.now)) }
{
    let mut rest = literals;
    let mut i = first;
    while let [literal, behind @ ..] = rest {
        add_factors_at(out, i, literal, all)?;
        i = after(i)?;
        rest = behind;
    }
    Ok(())
}

fn add_factors_at(
    out: &mut VecDeque<Candidate>,
    i: u32,
    literal: &Literal,
    all: &[Literal],
) -> Result<(), NoMemory>
    ensures { OnOk result (out.new.items ≡ out.old.items ++ factors_at (with_numbers 1 all.now) (i, literal.now)) }
{
    let mut rest = all;
    let mut j: u32 = 1;
    while let [other, behind @ ..] = rest {
        if i < j && literal.positive == other.positive {
            out.push_back(Candidate::Factor { i, j })?;
        }
        j = after(j)?;
        rest = behind;
    }
    Ok(())
}

fn add_reflexes(
    out: &mut VecDeque<Candidate>,
    first: u32,
    literals: &[Literal],
) -> Result<(), NoMemory>
    ensures { OnOk result (out.new.items ≡ out.old.items ++ all_reflexes (with_numbers first literals.now)) }
{
    let mut rest = literals;
    let mut i = first;
    while let [literal, behind @ ..] = rest {
        if !literal.positive && !is_relation(&literal.atom) {
            out.push_back(Candidate::Reflex { i })?;
        }
        i = after(i)?;
        rest = behind;
    }
    Ok(())
}

fn add_resolves(
    out: &mut VecDeque<Candidate>,
    first: u32,
    literals: &[Literal],
    start: u32,
    others: &[Literal],
) -> Result<(), NoMemory>
    ensures { OnOk result (out.new.items ≡ out.old.items ++ all_resolves (with_numbers first literals.now)
        (with_numbers start others.now)) }
{
    let mut rest = literals;
    let mut i = first;
    while let [literal, behind @ ..] = rest {
        add_resolves_at(out, i, literal, start, others)?;
        i = after(i)?;
        rest = behind;
    }
    Ok(())
}

fn add_resolves_at(
    out: &mut VecDeque<Candidate>,
    i: u32,
    literal: &Literal,
    start: u32,
    others: &[Literal],
) -> Result<(), NoMemory>
    ensures { OnOk result (out.new.items ≡ out.old.items ++ resolves_at (with_numbers start others.now)
        (i, literal.now)) }
{
    let mut rest = others;
    let mut j = start;
    while let [other, behind @ ..] = rest {
        if literal.positive != other.positive
            && is_relation(&literal.atom)
            && is_relation(&other.atom)
        {
            out.push_back(Candidate::Resolve { i, j })?;
        }
        j = after(j)?;
        rest = behind;
    }
    Ok(())
}

fn is_source(sig: &Signature, side: &Term, other: &Term) -> bool
    ensures { result ≡ may_go_from sig.now side.now other.now }
{
    !is_variable(side) && !greater(sig, other, side)
}

#[tactic(auto, using(crate::proofs::Varied::kinds))]
fn is_variable(term: &Term) -> bool
    ensures { result ≡ is_a_variable term.now }
{
    match term {
        Term::Var { .. } => true,
        Term::In { .. } => false,
        Term::App { .. } => false,
    }
}

fn sides(alloc: Global, sig: &Signature, literal: &Literal) -> Result<Items<Side>, NoMemory>
    ensures { IfOk result (λ ss. ss ≡ sides_from sig.now literal.now) }
{
    let mut found = Items::new(alloc);
    if !literal.positive {
        return Ok(found);
    }
    match &literal.atom {
        Atom::Rel { .. } => Ok(found),
        Atom::Eq { left, right } => {
            if is_source(sig, left, right) {
                found.push(Side::Left)?;
            }
            if is_source(sig, right, left) {
                found.push(Side::Right)?;
            }
            Ok(found)
        }
    }
}

// From the equations of a part into the literals of another.
fn add_paras(
    alloc: Global,
    out: &mut VecDeque<Candidate>,
    sig: &Signature,
    way: Way,
    from: Part,
    into: Part,
) -> Result<(), NoMemory>
    ensures { OnOk result (out.new.items ≡ out.old.items ++ all_paras sig.now way
        (with_numbers from.entry.first from.entry.literals.now)
        (with_numbers into.entry.first into.entry.literals.now)) }
{
    let mut rest = from.literals;
    let mut j = from.first;
    while let [literal, behind @ ..] = rest {
        let sides = sides(alloc, sig, literal)?;
        add_paras_at(
            alloc,
            out,
            way,
            j,
            sides.as_slice(),
            into.first,
            into.literals,
        )?;
        j = after(j)?;
        rest = behind;
    }
    Ok(())
}

fn add_paras_at(
    alloc: Global,
    out: &mut VecDeque<Candidate>,
    way: Way,
    j: u32,
    sides: &[Side],
    first: u32,
    literals: &[Literal],
) -> Result<(), NoMemory>
    ensures { OnOk result (out.new.items ≡ out.old.items ++ flat_map
        (paras_side way (with_numbers first literals.now) j) sides.now) }
{
    let mut rest = sides;
    while let [side, behind @ ..] = rest {
        add_paras_side(alloc, out, way, j, *side, first, literals)?;
        rest = behind;
    }
    Ok(())
}

fn add_paras_side(
    alloc: Global,
    out: &mut VecDeque<Candidate>,
    way: Way,
    j: u32,
    side: Side,
    first: u32,
    literals: &[Literal],
) -> Result<(), NoMemory>
    ensures { OnOk result (out.new.items ≡ out.old.items ++ paras_side way (with_numbers first literals.now) j side) }
{
    let mut rest = literals;
    let mut i = first;
    while let [literal, behind @ ..] = rest {
        add_paras_into(alloc, out, way, j, side, i, literal)?;
        i = after(i)?;
        rest = behind;
    }
    Ok(())
}

fn add_paras_into(
    alloc: Global,
    out: &mut VecDeque<Candidate>,
    way: Way,
    j: u32,
    side: Side,
    i: u32,
    literal: &Literal,
) -> Result<(), NoMemory>
    ensures { OnOk result (out.new.items ≡ out.old.items ++ paras_into way j side (i, literal.now)) }
{
    let paths = places(alloc, &literal.atom)?;
    add_paths(alloc, out, way, j, side, i, paths.as_slice())
}

fn add_paths(
    alloc: Global,
    out: &mut VecDeque<Candidate>,
    way: Way,
    j: u32,
    side: Side,
    i: u32,
    paths: &[Items<u32>],
) -> Result<(), NoMemory>
    ensures { OnOk result (out.new.items ≡ out.old.items ++ map (Candidate.Para way j side i) paths.now) }
{
    let mut rest = paths;
    while let [path, behind @ ..] = rest {
        let path = Items::from_slice(alloc, path.as_slice())?;
        out.push_back(Candidate::Para {
            way,
            j,
            side,
            i,
            path,
        })?;
        rest = behind;
    }
    Ok(())
}
