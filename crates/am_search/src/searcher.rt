ghost use Rattle.std.specs.Prelude.{IfOk, ◌≡◌, ℕ, ◌≤◌, OnOk, List, ◌<◌, ◌∷◌, length};
ghost use Rattle.am_clause.specs.declared.row.Row.{Row};
ghost use Rattle.am_search.specs.Outcomes.{due_kind};
ghost use Rattle.am_search.specs.Plain.{Start, History, due_of, wait_of};
ghost use Rattle.am_search.specs.Rules.{rules_in};
ghost use Rattle.am_search.specs.Searching.{StandsAt, task, RunOn, TurnOf};
ghost use Rattle.am_search.specs.Stating.{Tied, as_read};
ghost use Rattle.am_agenda.specs.declared.wait_row.WaitRow.{WaitRow};

use crate::asking::ask;
use crate::fate::{End, Kind};
use crate::setting::Setting;
use crate::state::State;
use am_agenda::Chooser;
use am_clause::Row;
use am_term::NoMemory;
use std::alloc::Global;

/// How a turn ended: a choice is due, or the search is over.
#[derive(Clone, Copy, Debug, PartialEq, Eq)]
pub enum Turned {
    Goes,
    Over(End),
}

/// A search that is cut at its choices.
#[derive(Drop)]
pub struct Searcher {
    pub state: State,
    pub made: u32,
}

impl Searcher {
    /// The start of a search, before the first inference.
    pub fn new(alloc: Global, setting: &Setting, rows: Vec<Row>) -> Result<Searcher, NoMemory>
        requires axioms { setting.now.axioms ≤ length rows.items }
        ensures none { IfOk result (λ s. s.made ≡ 0) }
        ensures tied { IfOk result (λ s. Tied setting.now s.state) }
        ensures reads { IfOk result (λ s. (limit : ℕ)
            → StandsAt (rules_in setting.now) rows.items limit Start (as_read setting.now s.state) s.made) }
    {
        let state = State::new(alloc, setting, rows)?;
        Ok(Searcher { state, made: 0 })
    }

    /// Makes the inferences that are due, up to a choice or the end.
    pub fn run_on(
        &mut self,
        alloc: Global,
        setting: &Setting,
        budget: u32,
    ) -> Result<Turned, NoMemory>
        requires few { self.old.made ≤ budget }
        requires tied { Tied setting.now self.old.state }
        ensures few { OnOk result (self.new.made ≤ budget) }
        ensures tied { OnOk result (Tied setting.now self.new.state) }
        ensures less { OnOk result (task (rules_in setting.now) budget self.new.made
            (as_read setting.now self.new.state) ≤ task (rules_in setting.now) budget self.old.made
            (as_read setting.now self.old.state)) }
        ensures goes { IfOk result (λ t. (start : List Row) (h : History)
            → StandsAt (rules_in setting.now) start budget h (as_read setting.now self.old.state) self.old.made
            → RunOn (rules_in setting.now) start budget h (as_read setting.now self.new.state) self.new.made t) }
    {
        'runs: loop {
            let kind = self.state.due(alloc, setting)?;
            match kind {
                Kind::Ending(end) => return Ok(Turned::Over(end)),
                Kind::Choosing => return Ok(Turned::Goes),
                Kind::Inferring => {
                    if self.made == budget {
                        return Ok(Turned::Over(End::Spent));
                    }
                    self.state.advance(alloc, setting)?;
                    self.made += 1;
                    continue;
                }
            }
        }
    }

    /// One choice, and the inferences that are then due.
    #[tactic(auto, using(crate::proofs::Picks::picking))]
    pub fn turn(
        &mut self,
        alloc: Global,
        setting: &Setting,
        budget: u32,
        chooser: &mut Box<dyn Chooser>,
    ) -> Result<Turned, NoMemory>
        requires few { self.old.made ≤ budget }
        requires tied { Tied setting.now self.old.state }
        requires waits { due_kind (due_of (rules_in setting.now) (as_read setting.now self.old.state)) ≡ Kind.Choosing }
        ensures few { OnOk result (self.new.made ≤ budget) }
        ensures tied { OnOk result (Tied setting.now self.new.state) }
        ensures less { OnOk result (task (rules_in setting.now) budget self.new.made
            (as_read setting.now self.new.state) < task (rules_in setting.now) budget self.old.made
            (as_read setting.now self.old.state)) }
        ensures goes { IfOk result (λ t. (start : List Row) (h : History)
            → StandsAt (rules_in setting.now) start budget h (as_read setting.now self.old.state) self.old.made
            → TurnOf (rules_in setting.now) start budget (pick_after chooser.old) h
            (as_read setting.now self.old.state) (as_read setting.now self.new.state) self.new.made t) }
        ensures after { OnOk result ((past : List (List WaitRow)) (list : List WaitRow)
            → pick_after chooser.new past list ≡ pick_after chooser.old
            (wait_of (rules_in setting.now) (as_read setting.now self.old.state) ∷ past) list) }
    {
        let waits = self.state.waiting(alloc, setting)?;
        let number = ask(chooser, waits.as_slice());
        self.state.choose(alloc, setting, number)?;
        let turned = self.run_on(alloc, setting, budget)?;
        Ok(turned)
    }
}
