ghost use Rattle.std.specs.Prelude.{◌≡◌, ◌↔◌, ◌≤◌, IfOk, IsTrue};
ghost use Rattle.am_clause.specs.Numbered.{IsNumbered};
ghost use Rattle.am_clause.specs.SortedClause.{is_sorted_clause};
ghost use Rattle.am_simplify.specs.Subsuming.{subsumed_by};
ghost use Rattle.am_simplify.specs.Subsumption.{Subsumes};

use crate::subsuming::subsumes;
use am_clause::Clause;
use am_term::{Ctx, NoMemory};
use std::alloc::Global;
use std::marker::Model;

/// Tests which clause subsumes which, without memory once it is made. Contracts see it as the number of places that it
/// has reserved.
#[derive(Drop)]
pub struct Matcher {
    // Bindings are held in frames on the stack while terms are trees. Over shared terms, which are numbers, these
    // places hold them: one for each variable.
    places: Vec<u32>,
}

impl Model for Matcher {
    ghost use Rattle.std.specs.Prelude.{ℕ};
    ghost use Rattle.std.specs.Vec.{vec_capacity};

    ghost Value = { ℕ };

    ghost view = { λ m. vec_capacity m.places };
}

impl Matcher {
    /// A matcher that has reserved 8,192 places.
    pub fn new(alloc: Global) -> Result<Matcher, NoMemory>
        ensures { IfOk result (λ m. 8192 ≤ m) }
    {
        let places = Vec::with_capacity(alloc, 8192)?;
        Ok(Matcher { places })
    }

    /// Whether `d` subsumes `c`: terms of fitting sorts for the variables of `d` make each of its literals one of `c`,
    /// and its answer that of `c`. Takes no memory.
    pub fn subsumes(&mut self, ctx: &Ctx, d: &Clause, c: &Clause) -> bool
        ensures test { result ≡ subsumed_by ctx.now.sig.now ctx.now.ins.now d.now c.now }
        ensures meaning { IsNumbered d.now → IsTrue (is_sorted_clause ctx.now.sig.now ctx.now.ins.now d.now)
            → (IsTrue result ↔ Subsumes ctx.now.sig.now ctx.now.ins.now d.now c.now) }
        ensures kept { self.new ≡ self.old }
    {
        subsumes(ctx, d, c)
    }
}
