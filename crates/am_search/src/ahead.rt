ghost use Rattle.std.specs.Prelude.{◌≡◌, List, [], IfOk, length, OnOk, not, MatchOption, ◌∷◌, map};
ghost use Rattle.am_clause.specs.declared.row.Row.{Row};
ghost use Rattle.am_search.specs.Left.{rest_of, sources_at};
ghost use Rattle.am_search.specs.Members.{processed, row_at, source_of, is_empty};
ghost use Rattle.am_search.specs.Plain.{turn_at};
ghost use Rattle.am_search.specs.Rules.{rules_in};
ghost use Rattle.am_search.specs.declared.setting.Setting.{Setting};

use crate::choices::Choices;
use crate::rows::number_after;
use crate::setting::Setting;
use crate::turn::Turn;
use am_clause::Row;
use am_term::NoMemory;
use std::alloc::Global;
use std::collections::VecDeque;

/// A turn of which one row may be made ahead.
#[derive(Drop)]
pub struct Ahead {
    pub row: Option<Row>,
    pub turn: Turn,
}

impl Ahead {
    /// No turn. Takes no memory.
    pub fn none(alloc: Global) -> Ahead
        ensures count { result.turn.count ≡ 0 }
        ensures none { (t : Setting) (rows : List Row) → rest_of t.ctx.sig.now t.ctx.ins.now t.axioms rows result ≡ [] }
    {
        Ahead {
            row: None,
            turn: Turn::none(alloc),
        }
    }

    /// The turn of the row of a number with the processed rows.
    #[tactic(auto, using(crate::proofs::Begun::beginning))]
    pub fn new(
        alloc: Global,
        setting: &Setting,
        rows: &[Row],
        choices: &Choices,
        number: u32,
    ) -> Result<Ahead, NoMemory>
        ensures count { IfOk result (λ a. a.turn.count ≡ length rows.now) }
        ensures rest { IfOk result (λ a. let s = setting.now in rest_of s.ctx.sig.now s.ctx.ins.now s.axioms rows.now a
            ≡ turn_at (rules_in s) (processed (rules_in s).axioms rows.now choices.now) number
            (row_at rows.now number)) }
    {
        let partners = processed_rows(alloc, setting, rows, choices)?;
        let turn = Turn::new(alloc, setting, rows, number, partners)?;
        Ok(Ahead { row: None, turn })
    }

    /// Whether a row is left: the next one is made, unless that was done.
    pub fn look(&mut self, alloc: Global, setting: &Setting, rows: &[Row]) -> Result<bool, NoMemory>
        ensures count { OnOk result (self.new.turn.count ≡ self.old.turn.count) }
        ensures rest { OnOk result (let s = setting.now in rest_of s.ctx.sig.now s.ctx.ins.now s.axioms rows.now
            self.new ≡ rest_of s.ctx.sig.now s.ctx.ins.now s.axioms rows.now self.old) }
        ensures left { IfOk result (λ b. let s = setting.now in is_empty
            (rest_of s.ctx.sig.now s.ctx.ins.now s.axioms rows.now self.old) ≡ not b) }
    {
        if self.row.is_some() {
            return Ok(true);
        }
        match self.turn.next(alloc, setting, rows)? {
            Some(row) => {
                self.row = Some(row);
                Ok(true)
            }
            None => Ok(false),
        }
    }

    /// The next row, if one is left.
    pub fn take(
        &mut self,
        alloc: Global,
        setting: &Setting,
        rows: &[Row],
    ) -> Result<Option<Row>, NoMemory>
        ensures count { OnOk result (self.new.turn.count ≡ self.old.turn.count) }
        ensures next { IfOk result (λ o. let s = setting.now in MatchOption o
            ((rest_of s.ctx.sig.now s.ctx.ins.now s.axioms rows.now self.old ≡ [])
            × (rest_of s.ctx.sig.now s.ctx.ins.now s.axioms rows.now self.new ≡ [])) (λ row.
            rest_of s.ctx.sig.now s.ctx.ins.now s.axioms rows.now self.old ≡ row
            ∷ rest_of s.ctx.sig.now s.ctx.ins.now s.axioms rows.now self.new)) }
    {
        match self.row.take() {
            Some(row) => Ok(Some(row)),
            None => self.turn.next(alloc, setting, rows),
        }
    }
}

// The numbers of the processed rows: axiom rows and those that were chosen.
#[tactic(auto, using(crate::proofs::Partners::partners))]
fn processed_rows(
    alloc: Global,
    setting: &Setting,
    rows: &[Row],
    choices: &Choices,
) -> Result<VecDeque<u32>, NoMemory>
    ensures { IfOk result (λ ns. sources_at setting.now.axioms rows.now ns.items ≡ map (source_of setting.now.axioms)
        (processed setting.now.axioms rows.now choices.now)) }
{
    let mut found = VecDeque::new(alloc);
    for i in 0..rows.len() {
        let number = number_after(i)?;
        if number <= setting.axioms || choices.contains(number) {
            found.push_back(number)?;
        }
    }
    Ok(found)
}
