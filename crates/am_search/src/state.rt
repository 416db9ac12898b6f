ghost use Rattle.std.specs.Prelude.{IfOk, ◌≡◌, OnOk, ◌++◌, ◌∷◌, [], length, ◌+◌, Some, true, ◌-◌, ◌≤◌, not, ℕ};
ghost use Rattle.am_search.specs.Members.{row_at, waiting, is_empty};
ghost use Rattle.am_search.specs.Outcomes.{due_kind, advanced};
ghost use Rattle.am_search.specs.Plain.{reading_at, Start, prepare, start_prepared, begun, fated, due_of, after, Choose, wait_of, next_start};
ghost use Rattle.am_search.specs.Rules.{rules_in};
ghost use Rattle.am_search.specs.Stating.{Tied, as_read, judged_in};
ghost use Rattle.am_search.specs.Weights.{weighed_from};

use crate::ahead::Ahead;
use crate::choices::Choices;
use crate::fate::{End, Fate, Kind, Stage};
use crate::fates::Fates;
use crate::judging::judge;
use crate::rows::{find, number_after};
use crate::setting::Setting;
use crate::unit_taking::{axiom_units, take_in};
use crate::weighed_rows::WeighedRows;
use am_agenda::WaitRow;
use am_clause::Row;
use am_simplify::Rewriter;
use am_term::NoMemory;
use std::alloc::Global;
use std::mem;

/// How far a search has come.
#[derive(Drop)]
pub struct State {
    pub rows: WeighedRows,
    pub fates: Fates,
    pub choices: Choices,
    pub left: u32,
    pub stage: Stage,
    pub ahead: Ahead,
    pub rewriter: Rewriter,
}

impl State {
    /// The starting rows, of which the goal is prepared, and then the givens.
    pub fn new(alloc: Global, setting: &Setting, rows: Vec<Row>) -> Result<State, NoMemory>
        requires axioms { setting.now.axioms ≤ length rows.items }
        ensures tied { IfOk result (λ s. Tied setting.now s) }
        ensures reads { IfOk result (λ s. as_read setting.now s ≡ reading_at (rules_in setting.now) rows.items Start) }
    {
        let rewriter = axiom_units(alloc, setting, rows.as_slice())?;
        let mut state = State {
            rows: WeighedRows::new(alloc, rows)?,
            fates: Fates::new(alloc),
            choices: Choices::new(alloc),
            left: first_left(setting),
            stage: Stage::Quiet,
            ahead: Ahead::none(alloc),
            rewriter,
        };
        state.begin(alloc, setting)?;
        Ok(state)
    }

    // The row of a number is prepared.
    fn prepare(&mut self, alloc: Global, setting: &Setting, number: u32) -> Result<(), NoMemory>
        requires tied { Tied setting.now self.old }
        ensures tied { OnOk result (Tied setting.now self.new) }
        ensures judged { OnOk result (judged_in self.new ≡ prepare
            (rules_in setting.now) self.old.rows self.old.choices number (row_at self.old.rows number)
            (judged_in self.old)) }
        ensures rows { OnOk result (self.new.rows ≡ self.old.rows) }
        ensures choices { OnOk result (self.new.choices ≡ self.old.choices) }
        ensures ahead { OnOk result (self.new.ahead ≡ self.old.ahead) }
    {
        let Some(row) = find(self.rows.as_slice(), number) else {
            return Ok(());
        };
        let (fate, stage) = judge(alloc, setting, self, number, row)?;
        self.fates.push(number, fate)?;
        self.stage = stage;
        Ok(())
    }

    // The next of the goal and the givens is prepared, which leaves so many.
    fn start(&mut self, alloc: Global, setting: &Setting, left: u32) -> Result<(), NoMemory>
        requires tied { Tied setting.now self.old }
        ensures tied { OnOk result (Tied setting.now self.new) }
        ensures judged { OnOk result (judged_in self.new ≡ start_prepared
            (rules_in setting.now) self.old.rows self.old.choices left (judged_in self.old)) }
        ensures rows { OnOk result (self.new.rows ≡ self.old.rows) }
        ensures choices { OnOk result (self.new.choices ≡ self.old.choices) }
        ensures ahead { OnOk result (self.new.ahead ≡ self.old.ahead) }
    {
        let number = start_number(setting, self.left)?;
        self.left = left;
        self.prepare(alloc, setting, number)
    }

    // The goal and the givens that are left are prepared, until one asks for something.
    fn begin(&mut self, alloc: Global, setting: &Setting) -> Result<(), NoMemory>
        requires tied { Tied setting.now self.old }
        ensures tied { OnOk result (Tied setting.now self.new) }
        ensures judged { OnOk result (judged_in self.new ≡ begun
            (rules_in setting.now) self.old.rows self.old.choices self.old.left (judged_in self.old)) }
        ensures rows { OnOk result (self.new.rows ≡ self.old.rows) }
        ensures choices { OnOk result (self.new.choices ≡ self.old.choices) }
        ensures ahead { OnOk result (self.new.ahead ≡ self.old.ahead) }
    {
        'starts: while self.left > 0 {
            match &self.stage {
                Stage::Quiet => {}
                Stage::Makes(_row) => return Ok(()),
                Stage::Closes(_row) => return Ok(()),
                Stage::Ended(_answer) => return Ok(()),
            }
            let left = self.left - 1;
            self.start(alloc, setting, left)?;
        }
        Ok(())
    }

    // An inferred row is prepared, and then the goal and the givens that are left.
    #[tactic(auto, using(crate::proofs::Tying::tying))]
    fn join(&mut self, alloc: Global, setting: &Setting, row: Row) -> Result<(), NoMemory>
        requires tied { Tied setting.now self.old }
        ensures tied { OnOk result (Tied setting.now self.new) }
        ensures judged { OnOk result (let j = prepare (rules_in setting.now)
            (self.old.rows ++ row ∷ []) self.old.choices (length self.old.rows + 1) (Some row)
            (judged_in self.old) in judged_in self.new ≡ begun (rules_in setting.now)
            (self.old.rows ++ row ∷ []) self.old.choices j.left j) }
        ensures rows { OnOk result (self.new.rows ≡ self.old.rows ++ row ∷ []) }
        ensures choices { OnOk result (self.new.choices ≡ self.old.choices) }
        ensures ahead { OnOk result (self.new.ahead ≡ self.old.ahead) }
    {
        let number = number_after(self.rows.len())?;
        self.rows.push(row)?;
        self.prepare(alloc, setting, number)?;
        self.begin(alloc, setting)
    }

    // A close row is the last.
    #[tactic(auto, using(crate::proofs::Tying::tying))]
    fn finish(&mut self, alloc: Global, setting: &Setting, row: Row) -> Result<(), NoMemory>
        requires tied { Tied setting.now self.old }
        ensures tied { OnOk result (Tied setting.now self.new) }
        ensures judged { OnOk result (let j = fated (length self.old.rows + 1) (Fate.Last, Stage.Ended true)
            (judged_in self.old) in judged_in self.new ≡ begun (rules_in setting.now)
            (self.old.rows ++ row ∷ []) self.old.choices j.left j) }
        ensures rows { OnOk result (self.new.rows ≡ self.old.rows ++ row ∷ []) }
        ensures choices { OnOk result (self.new.choices ≡ self.old.choices) }
        ensures ahead { OnOk result (self.new.ahead ≡ self.old.ahead) }
    {
        let number = number_after(self.rows.len())?;
        self.rows.push(row)?;
        self.fates.push(number, Fate::Last)?;
        self.stage = Stage::Ended(true);
        self.begin(alloc, setting)
    }

    /// The inference that is due is made, and what follows from it is prepared.
    #[tactic(auto, using(crate::proofs::Growth::growth))]
    pub fn advance(&mut self, alloc: Global, setting: &Setting) -> Result<(), NoMemory>
        requires due { due_kind (due_of (rules_in setting.now) (as_read setting.now self.old)) ≡ Kind.Inferring }
        requires tied { Tied setting.now self.old }
        ensures tied { OnOk result (Tied setting.now self.new) }
        ensures reads { OnOk result (as_read setting.now self.new ≡ advanced (rules_in setting.now)
            (as_read setting.now self.old)) }
    {
        match mem::replace(&mut self.stage, Stage::Quiet) {
            Stage::Quiet => match self.ahead.take(alloc, setting, self.rows.as_slice())? {
                None => Ok(()),
                Some(row) => self.join(alloc, setting, row),
            },
            Stage::Makes(row) => self.join(alloc, setting, row),
            Stage::Closes(row) => self.finish(alloc, setting, row),
            Stage::Ended(_answer) => Ok(()),
        }
    }

    /// A row is chosen.
    #[tactic(auto, using(crate::proofs::Tying::tying))]
    pub fn choose(&mut self, alloc: Global, setting: &Setting, number: u32) -> Result<(), NoMemory>
        requires tied { Tied setting.now self.old }
        requires there { number ≤ length self.old.rows }
        ensures tied { OnOk result (Tied setting.now self.new) }
        ensures reads { OnOk result (as_read setting.now self.new ≡ after (rules_in setting.now) (Choose number)
            (as_read setting.now self.old)) }
    {
        let rows = self.rows.as_slice();
        take_in(
            alloc,
            setting,
            rows,
            &self.choices,
            number,
            &mut self.rewriter,
        )?;
        self.choices.push(number)?;
        self.ahead = Ahead::new(alloc, setting, self.rows.as_slice(), &self.choices, number)?;
        Ok(())
    }

    /// The rows that wait.
    #[tactic(auto, using(crate::specs::Rules::rules_laws))]
    pub fn waiting(&self, alloc: Global, setting: &Setting) -> Result<Vec<WaitRow>, NoMemory>
        ensures { IfOk result (λ w. w.items ≡ wait_of (rules_in setting.now) (as_read setting.now self.now)) }
    {
        waiting_rows(
            alloc,
            setting.weight,
            &self.rows,
            &self.fates,
            &self.choices,
        )
    }

    // Whether some row waits.
    #[tactic(auto, using(crate::specs::Rules::rules_laws))]
    fn some_wait(&self, setting: &Setting) -> Result<bool, NoMemory>
        ensures { IfOk result (λ b. is_empty (wait_of (rules_in setting.now) (as_read setting.now self.now)) ≡ not b) }
    {
        let _most = setting.weight;
        any_waits(self.rows.as_slice(), &self.fates, &self.choices)
    }

    /// What is due.
    #[tactic(auto, using(crate::proofs::Dues::looking))]
    pub fn due(&mut self, alloc: Global, setting: &Setting) -> Result<Kind, NoMemory>
        requires tied { Tied setting.now self.old }
        ensures tied { OnOk result (Tied setting.now self.new) }
        ensures same { OnOk result (as_read setting.now self.new ≡ as_read setting.now self.old) }
        ensures kind { IfOk result (λ k. k ≡ due_kind (due_of (rules_in setting.now) (as_read setting.now self.old))) }
    {
        match &self.stage {
            Stage::Ended(answer) => return Ok(Kind::Ending(if *answer {
                End::Found
            } else {
                End::Contradiction
            })),
            Stage::Makes(_row) => return Ok(Kind::Inferring),
            Stage::Closes(_row) => return Ok(Kind::Inferring),
            Stage::Quiet => {}
        }
        if self.ahead.look(alloc, setting, self.rows.as_slice())? {
            return Ok(Kind::Inferring);
        }
        if self.some_wait(setting)? {
            return Ok(Kind::Choosing);
        }
        Ok(Kind::Ending(End::Exhausted))
    }
}

// How many of the goal and the givens there are.
#[tactic(auto, using(crate::specs::Rules::rules_laws))]
fn first_left(setting: &Setting) -> u32
    ensures { result ≡ (rules_in setting.now).starting - (rules_in setting.now).axioms }
{
    setting.starting.saturating_sub(setting.axioms)
}

// The number of the next of them, of which so many are left.
#[tactic(auto, using(crate::specs::Rules::rules_laws))]
fn start_number(setting: &Setting, left: u32) -> Result<u32, NoMemory>
    ensures { IfOk result (λ n. n ≡ next_start (rules_in setting.now) left) }
{
    number_after(setting.starting.saturating_sub(left) as usize)
}

// The rows that were kept and weren't chosen.
#[tactic(auto, using(crate::proofs::Weighing::limiting))]
fn waiting_rows(
    alloc: Global,
    most: u32,
    rows: &WeighedRows,
    fates: &Fates,
    choices: &Choices,
) -> Result<Vec<WaitRow>, NoMemory>
    requires { most ≤ 1000000 }
    ensures { IfOk result (λ w. w.items ≡ waiting most rows.now fates.now choices.now) }
{
    waiting_from(alloc, most, rows.weights(), fates, choices)
}

// The same from the weights of all rows.
fn waiting_from(
    alloc: Global,
    most: u32,
    weights: &[u32],
    fates: &Fates,
    choices: &Choices,
) -> Result<Vec<WaitRow>, NoMemory>
    requires { most ≤ 1000000 }
    ensures { IfOk result (λ w. w.items ≡ weighed_from most fates.now choices.now 1 weights.now) }
{
    let mut waits = Vec::new(alloc);
    let mut number: u32 = 0;
    let mut rest = weights;
    while let [weight, behind @ ..] = rest {
        number = number_after(number as usize)?;
        if fates.keeps(number) && !choices.contains(number) {
            let weight = (*weight).min(most + 1);
            waits.push(WaitRow { number, weight })?;
        }
        rest = behind;
    }
    Ok(waits)
}

// Whether a row was kept and wasn't chosen.
fn any_waits(rows: &[Row], fates: &Fates, choices: &Choices) -> Result<bool, NoMemory>
    ensures { IfOk result (λ b. (most : ℕ) → is_empty (waiting most rows.now fates.now choices.now) ≡ not b) }
{
    let mut number: u32 = 0;
    let mut rest = rows;
    while let [_row, behind @ ..] = rest {
        number = number_after(number as usize)?;
        if fates.keeps(number) && !choices.contains(number) {
            return Ok(true);
        }
        rest = behind;
    }
    Ok(false)
}
