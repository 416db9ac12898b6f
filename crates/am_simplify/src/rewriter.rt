ghost use Rattle.std.specs.Prelude.{◌≡◌, ◌≤◌, [], length, IfOk, MatchResult};
ghost use Rattle.am_simplify.specs.NormalStep.{step_by};
ghost use Rattle.am_simplify.specs.Units.{place_of as is_place_of, unit_of, with_unit, with_units};

use crate::normalizing::step_with;
use crate::orienting::unit_side;
use crate::step::{RewriteMade, Unit};
use am_clause::{Clause, copy_clause};
use am_term::{Ctx, NoMemory};
use std::alloc::Global;
use std::marker::Model;

// One more unit, at its place by number.
#[tactic(auto, using(crate::proofs::Inserted::inserting))]
fn put(units: &mut Vec<Unit>, unit: Unit) -> Result<(), NoMemory>
    ensures { MatchResult result (λ _. units.new.items ≡ with_unit unit units.old.items) (λ _.
        units.new.items ≡ units.old.items) }
{
    let place = place_of(units.as_slice(), unit.row);
    if units.insert(place, unit).is_err() {
        return Err(NoMemory);
    }
    Ok(())
}

// The place of the first unit whose number isn't smaller, from 0.
fn place_of(units: &[Unit], row: u32) -> usize
    ensures value { result ≡ is_place_of row units.now }
    ensures within { result ≤ length units.now }
{
    let mut rest = units;
    let mut place = 0;
    while let [unit, behind @ ..] = rest {
        if unit.row >= row {
            return place;
        }
        place += 1;
        rest = behind;
    }
    place
}

/// The units that rewrite, which contracts see as their list in order of row numbers.
#[derive(Drop)]
pub struct Rewriter {
    units: Vec<Unit>,
}

impl Model for Rewriter {
    ghost use Rattle.std.specs.Prelude.{List};
    ghost use Rattle.std.specs.Coded.{codes};
    ghost use Rattle.am_simplify.specs.declared.step.Unit.{Unit};
    ghost use Rattle.am_simplify.specs.contracts.step.Unit as unit;

    ghost Value = { List Unit };

    ghost coded = { Prim.hlevel (codes, unit.the_row.coded) };

    ghost view = { λ r. r.units.items };
}

impl Rewriter {
    /// No units. Takes no memory.
    pub fn new(alloc: Global) -> Rewriter
        ensures { result ≡ [] }
    {
        Rewriter {
            units: Vec::new(alloc),
        }
    }

    /// Takes the clause of a row in, at its place by number, if it has one literal, a positive equation with a greater
    /// side, and no answer; else nothing changes. Without memory nothing changes.
    pub fn add(
        &mut self,
        alloc: Global,
        ctx: &Ctx,
        row: u32,
        clause: &Clause,
    ) -> Result<(), NoMemory>
        ensures { MatchResult result (λ _.
            self.new ≡ with_units (unit_of ctx.now.sig.now (row, clause.now)) self.old) (λ _. self.new ≡ self.old) }
    {
        let Some(side) = unit_side(ctx.sig, clause) else {
            return Ok(());
        };
        let clause = copy_clause(alloc, clause)?;
        put(&mut self.units, Unit { row, side, clause })
    }

    /// The next step of a clause towards its normal form by these units, or None if it is normal.
    pub fn step(
        &self,
        alloc: Global,
        ctx: &Ctx,
        clause: &Clause,
    ) -> Result<Option<RewriteMade>, NoMemory>
        ensures { IfOk result (λ o. o ≡ step_by ctx.now.sig.now ctx.now.ins.now self.now clause.now) }
    {
        step_with(alloc, ctx, self.units.as_slice(), clause)
    }
}
