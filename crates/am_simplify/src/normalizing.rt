ghost use Rattle.std.specs.Prelude.{◌≡◌, ◌&&◌, ◌∷◌, [], IfOk, Some, not};
ghost use Rattle.am_term.specs.Place.{member};
ghost use Rattle.am_clause.specs.Tautology.{equal_sides};
ghost use Rattle.am_simplify.specs.Frames.{path_of};
ghost use Rattle.am_simplify.specs.Numbering.{find_map};
ghost use Rattle.am_simplify.specs.Places.{places as places_of, places_all};
ghost use Rattle.am_simplify.specs.Standing.{AreArguments, IsPartAt};
ghost use Rattle.am_simplify.specs.NormalStep.{first_to_go as is_first_to_go, rewrite_at, rewrite_first as is_first_rewriting, rewrite_in, rewrite_with as is_rewriting_with, step_by};

use crate::agreeing::unit_agrees;
use crate::frames::Path;
use crate::placing::after;
use crate::step::{RewriteMade, StepRule, Unit};
use am_clause::Clause;
use am_rules::{reflex, rewrite};
use am_term::{Atom, Ctx, Literal, NoMemory, Term, same};
use sqlite_items::Items;
use std::alloc::Global;

/// The next step of a clause by some units, or None if it is normal for them.
pub fn step_with(
    alloc: Global,
    ctx: &Ctx,
    units: &[Unit],
    clause: &Clause,
) -> Result<Option<RewriteMade>, NoMemory>
    ensures { IfOk result (λ o. o ≡ step_by ctx.now.sig.now ctx.now.ins.now units.now clause.now) }
{
    match first_to_go(clause.literals.as_slice())? {
        Some(i) => match reflex(alloc, ctx, clause, i)? {
            Some(made) => Ok(Some(RewriteMade {
                rule: StepRule::Reflex { i },
                made,
            })),
            None => Ok(None),
        },
        None => rewrite_first(alloc, ctx, units, clause),
    }
}

// The number of the first negative equation with equal sides.
fn first_to_go(literals: &[Literal]) -> Result<Option<u32>, NoMemory>
    ensures { IfOk result (λ o. o ≡ is_first_to_go literals.now) }
{
    let mut rest = literals;
    let mut i = 1;
    while let [literal, behind @ ..] = rest {
        if goes(literal) {
            return Ok(Some(i));
        }
        i = after(i)?;
        rest = behind;
    }
    Ok(None)
}

fn goes(literal: &Literal) -> bool
    ensures { result ≡ (not literal.now.positive && equal_sides literal.now.atom) }
{
    if literal.positive {
        return false;
    }
    match &literal.atom {
        Atom::Rel { .. } => false,
        Atom::Eq { left, right } => same(left, right),
    }
}

#[tactic(auto, using(crate::proofs::Rewriting::starting))]
fn rewrite_first(
    alloc: Global,
    ctx: &Ctx,
    units: &[Unit],
    clause: &Clause,
) -> Result<Option<RewriteMade>, NoMemory>
    ensures { IfOk result (λ o. o ≡ is_first_rewriting ctx.now.sig.now ctx.now.ins.now units.now clause.now) }
{
    let mut rest = clause.literals.as_slice();
    let mut i = 1;
    while let [literal, behind @ ..] = rest {
        if let Some(found) = rewrite_literal(alloc, ctx, units, clause, i, literal)? {
            return Ok(Some(found));
        }
        i = after(i)?;
        rest = behind;
    }
    Ok(None)
}

#[tactic(auto, using(crate::proofs::Rewriting::starting))]
fn rewrite_literal(
    alloc: Global,
    ctx: &Ctx,
    units: &[Unit],
    clause: &Clause,
    i: u32,
    literal: &Literal,
) -> Result<Option<RewriteMade>, NoMemory>
    requires { member clause.now.literals i ≡ Some literal.now }
    ensures { IfOk result (λ o. o ≡ rewrite_in ctx.now.sig.now ctx.now.ins.now units.now clause.now (i, literal.now)) }
{
    match &literal.atom {
        Atom::Rel { args, .. } => {
            rewrite_all(alloc, ctx, units, clause, i, args.as_slice(), &Path::Root)
        }
        Atom::Eq { left, right } => rewrite_sides(alloc, ctx, units, clause, i, left, right),
    }
}

// In the sides of literal i, which is an equation.
#[tactic(auto, using(crate::proofs::Rewriting::starting))]
fn rewrite_sides(
    alloc: Global,
    ctx: &Ctx,
    units: &[Unit],
    clause: &Clause,
    i: u32,
    left: &Term,
    right: &Term,
) -> Result<Option<RewriteMade>, NoMemory>
    requires { AreArguments clause.now i [] 1 (left.now ∷ right.now ∷ []) }
    ensures { IfOk result (λ o. o ≡ find_map (rewrite_at ctx.now.sig.now ctx.now.ins.now units.now clause.now i)
        (places_all 1 (left.now ∷ right.now ∷ []) [])) }
{
    let first = Path::Below {
        k: 1,
        above: &Path::Root,
    };
    if let Some(found) = rewrite_term(alloc, ctx, units, clause, i, left, &first)? {
        return Ok(Some(found));
    }
    let second = Path::Below {
        k: 2,
        above: &Path::Root,
    };
    rewrite_term(alloc, ctx, units, clause, i, right, &second)
}

// The first rewriting in a term that stands at a path of literal i.
#[cycle(rewriting)]
#[tactic(auto, using(crate::proofs::Rewriting::rewriting))]
fn rewrite_term(
    alloc: Global,
    ctx: &Ctx,
    units: &[Unit],
    clause: &Clause,
    i: u32,
    term: &Term,
    path: &Path,
) -> Result<Option<RewriteMade>, NoMemory>
    requires { IsPartAt clause.now i (path_of path.now) term.now }
    ensures { IfOk result (λ o. o ≡ find_map (rewrite_at ctx.now.sig.now ctx.now.ins.now units.now clause.now i)
        (places_of term.now (path_of path.now))) }
{
    match term {
        Term::Var { .. } => Ok(None),
        Term::In { .. } => rewrite_place(alloc, ctx, units, clause, i, term, path),
        Term::App { args, .. } => {
            if let Some(found) = rewrite_place(alloc, ctx, units, clause, i, term, path)? {
                return Ok(Some(found));
            }
            rewrite_all(alloc, ctx, units, clause, i, args.as_slice(), path)
        }
    }
}

// The same of all arguments of what stands at a path.
#[cycle(rewriting)]
#[tactic(auto, using(crate::proofs::Rewriting::rewriting))]
fn rewrite_all(
    alloc: Global,
    ctx: &Ctx,
    units: &[Unit],
    clause: &Clause,
    i: u32,
    terms: &[Term],
    path: &Path,
) -> Result<Option<RewriteMade>, NoMemory>
    requires { AreArguments clause.now i (path_of path.now) 1 terms.now }
    ensures { IfOk result (λ o. o ≡ find_map (rewrite_at ctx.now.sig.now ctx.now.ins.now units.now clause.now i)
        (places_all 1 terms.now (path_of path.now))) }
{
    let mut rest = terms;
    let mut k = 1;
    while let [term, behind @ ..] = rest {
        let here = Path::Below { k, above: &*path };
        if let Some(found) = rewrite_term(alloc, ctx, units, clause, i, term, &here)? {
            return Ok(Some(found));
        }
        k = after(k)?;
        rest = behind;
    }
    Ok(None)
}

// By the first unit that rewrites the part at a path.
fn rewrite_place(
    alloc: Global,
    ctx: &Ctx,
    units: &[Unit],
    clause: &Clause,
    i: u32,
    part: &Term,
    path: &Path,
) -> Result<Option<RewriteMade>, NoMemory>
    requires { IsPartAt clause.now i (path_of path.now) part.now }
    ensures { IfOk result (λ o. o ≡ rewrite_at ctx.now.sig.now ctx.now.ins.now units.now clause.now i
        (path_of path.now)) }
{
    let mut rest = units;
    while let [unit, behind @ ..] = rest {
        if let Some(found) = rewrite_with(alloc, ctx, unit, clause, i, part, path)? {
            return Ok(Some(found));
        }
        rest = behind;
    }
    Ok(None)
}

#[tactic(auto, using(crate::proofs::Unmatched::skipping))]
fn rewrite_with(
    alloc: Global,
    ctx: &Ctx,
    unit: &Unit,
    clause: &Clause,
    i: u32,
    part: &Term,
    path: &Path,
) -> Result<Option<RewriteMade>, NoMemory>
    requires { IsPartAt clause.now i (path_of path.now) part.now }
    ensures { IfOk result (λ o. o ≡ is_rewriting_with ctx.now.sig.now ctx.now.ins.now clause.now i
        (path_of path.now) unit.now) }
{
    if !unit_agrees(unit, part) {
        return Ok(None);
    }
    rewrite_by(alloc, ctx, unit, clause, i, numbers_of(alloc, path)?)
}

// By one unit, at one place.
fn rewrite_by(
    alloc: Global,
    ctx: &Ctx,
    unit: &Unit,
    clause: &Clause,
    i: u32,
    path: Items<u32>,
) -> Result<Option<RewriteMade>, NoMemory>
    ensures { IfOk result (λ o. o ≡ is_rewriting_with ctx.now.sig.now ctx.now.ins.now clause.now i path unit.now) }
{
    let Some(made) = rewrite(
        alloc,
        ctx,
        &unit.clause,
        unit.side,
        clause,
        i,
        path.as_slice(),
    )?
    else {
        return Ok(None);
    };
    let rule = StepRule::Rewrite {
        row: unit.row,
        side: unit.side,
        i,
        path,
    };
    Ok(Some(RewriteMade { rule, made }))
}

// The numbers of a path, the first one first.
fn numbers_of(alloc: Global, path: &Path) -> Result<Items<u32>, NoMemory>
    ensures { IfOk result (λ ns. ns ≡ path_of path.now) }
{
    match path {
        Path::Root => Ok(Items::new(alloc)),
        Path::Below { k, above } => {
            let mut numbers = numbers_of(alloc, above)?;
            numbers.push(*k)?;
            Ok(numbers)
        }
    }
}
