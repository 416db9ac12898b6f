ghost use Rattle.std.specs.Prelude.{◌≡◌, List, [], IfOk, length, OnOk, MatchOption, ◌∷◌, take, option_map};
ghost use Rattle.am_clause.specs.declared.row.Row.{Row};
ghost use Rattle.am_rules.specs.Inference.{row_of};
ghost use Rattle.am_search.specs.Left.{left_of, turn_with, sources_at, left_in, candidates_with, left_here};
ghost use Rattle.am_search.specs.Members.{source_at};
ghost use Rattle.am_search.specs.Turn.{all_made, row_made};
ghost use Rattle.am_search.specs.declared.setting.Setting.{Setting};

use crate::candidate::{Candidate, Way};
use crate::listing::{alone, between};
use crate::rows::{find, source};
use crate::setting::Setting;
use crate::source::Source;
use am_clause::{Made, Row, Rule};
use am_rules::{factor, paramodulate, reflex, resolve};
use am_term::{Ctx, NoMemory};
use std::alloc::Global;
use std::collections::VecDeque;

/// How far the turn of a row has come: the candidates that are left with one partner, and the partners
/// behind it, by their numbers. It knows the rows alone that were there as it began.
#[derive(Drop)]
pub struct Turn {
    pub count: usize,
    pub given: u32,
    pub current: u32,
    pub candidates: VecDeque<Candidate>,
    pub partners: VecDeque<u32>,
}

impl Turn {
    /// A turn of no row. Takes no memory.
    pub fn none(alloc: Global) -> Turn
        ensures count { result.count ≡ 0 }
        ensures none { (t : Setting) (rows : List Row) → left_of t.ctx.sig.now t.ctx.ins.now t.axioms rows result ≡ [] }
    {
        Turn {
            count: 0,
            given: 0,
            current: 0,
            candidates: VecDeque::new(alloc),
            partners: VecDeque::new(alloc),
        }
    }

    /// The turn of a row with some partners.
    #[tactic(auto, using(crate::proofs::Partners::take_all), unfolding(crate::specs::Turn::turn))]
    pub fn new(
        alloc: Global,
        setting: &Setting,
        rows: &[Row],
        given: u32,
        partners: VecDeque<u32>,
    ) -> Result<Turn, NoMemory>
        ensures count { IfOk result (λ t. t.count ≡ length rows.now) }
        ensures rows { IfOk result (λ t. let s = setting.now in left_of s.ctx.sig.now s.ctx.ins.now s.axioms rows.now t
            ≡ turn_with s.ctx.sig.now s.ctx.ins.now (sources_at s.axioms rows.now partners.items)
            (source_at s.axioms rows.now given)) }
    {
        let _sig = setting.ctx.sig;
        match find(rows, given) {
            Some(row) => {
                let g = source(setting.axioms, given, row);
                let candidates = alone(alloc, &g)?;
                Ok(Turn {
                    count: rows.len(),
                    given,
                    current: given,
                    candidates,
                    partners,
                })
            }
            None => Ok(Turn {
                count: rows.len(),
                given,
                current: given,
                candidates: VecDeque::new(alloc),
                partners,
            }),
        }
    }

    /// The next row that the turn makes, if one is left.
    pub fn next(
        &mut self,
        alloc: Global,
        setting: &Setting,
        rows: &[Row],
    ) -> Result<Option<Row>, NoMemory>
        ensures count { OnOk result (self.new.count ≡ self.old.count) }
        ensures next { IfOk result (λ o. let s = setting.now in MatchOption o
            ((left_of s.ctx.sig.now s.ctx.ins.now s.axioms rows.now self.old ≡ [])
            × (left_of s.ctx.sig.now s.ctx.ins.now s.axioms rows.now self.new ≡ [])) (λ row.
            left_of s.ctx.sig.now s.ctx.ins.now s.axioms rows.now self.old ≡ row
            ∷ left_of s.ctx.sig.now s.ctx.ins.now s.axioms rows.now self.new)) }
    {
        self.next_among(alloc, setting, front(rows, self.count))
    }

    #[tactic(auto, using(crate::proofs::Turns::turning))]
    fn next_among(
        &mut self,
        alloc: Global,
        setting: &Setting,
        rows: &[Row],
    ) -> Result<Option<Row>, NoMemory>
        ensures count { OnOk result (self.new.count ≡ self.old.count) }
        ensures next { IfOk result (λ o. let s = setting.now in MatchOption o
            ((left_in s.ctx.sig.now s.ctx.ins.now s.axioms rows.now self.old ≡ [])
            × (left_in s.ctx.sig.now s.ctx.ins.now s.axioms rows.now self.new ≡ [])) (λ row.
            left_in s.ctx.sig.now s.ctx.ins.now s.axioms rows.now self.old ≡ row
            ∷ left_in s.ctx.sig.now s.ctx.ins.now s.axioms rows.now self.new)) }
    {
        let Some(row) = find(rows, self.given) else {
            return Ok(None);
        };
        let g = source(setting.axioms, self.given, row);
        'partners: loop {
            match next_here(alloc, setting, rows, &g, self.current, &mut self.candidates)? {
                Some(row) => return Ok(Some(row)),
                None => {}
            }
            match self.partners.pop_front() {
                Some(n) => {
                    self.candidates = fill(alloc, setting, rows, &g, n)?;
                    self.current = n;
                }
                None => return Ok(None),
            }
        }
    }
}

// The first rows, so many.
fn front(rows: &[Row], count: usize) -> &[Row]
    ensures { result.now ≡ take count rows.now }
{
    if count <= rows.len() {
        return &rows[..count];
    }
    rows
}

// The candidates of a row with a partner, if there is one.
fn fill(
    alloc: Global,
    setting: &Setting,
    rows: &[Row],
    g: &Source,
    n: u32,
) -> Result<VecDeque<Candidate>, NoMemory>
    ensures { IfOk result (λ cs. cs.items ≡ candidates_with setting.now.ctx.sig.now g.now
        (source_at setting.now.axioms rows.now n)) }
{
    match find(rows, n) {
        Some(row) => {
            let p = source(setting.axioms, n, row);
            between(alloc, setting.ctx.sig, g, &p)
        }
        None => Ok(VecDeque::new(alloc)),
    }
}

// The next row that the candidates make with a partner, if there is one.
fn next_here(
    alloc: Global,
    setting: &Setting,
    rows: &[Row],
    g: &Source,
    n: u32,
    candidates: &mut VecDeque<Candidate>,
) -> Result<Option<Row>, NoMemory>
    ensures { IfOk result (λ o. let s = setting.now in MatchOption o
        ((left_here s.ctx.sig.now s.ctx.ins.now g.now (source_at s.axioms rows.now n) candidates.old.items ≡ [])
        × (left_here s.ctx.sig.now s.ctx.ins.now g.now (source_at s.axioms rows.now n) candidates.new.items ≡ []))
        (λ row. left_here s.ctx.sig.now s.ctx.ins.now g.now (source_at s.axioms rows.now n) candidates.old.items ≡ row
        ∷ left_here s.ctx.sig.now s.ctx.ins.now g.now (source_at s.axioms rows.now n) candidates.new.items)) }
{
    match find(rows, n) {
        Some(row) => {
            let p = source(setting.axioms, n, row);
            next_of(alloc, &setting.ctx, g, &p, candidates)
        }
        None => Ok(None),
    }
}

// The next row that the candidates make.
fn next_of(
    alloc: Global,
    ctx: &Ctx,
    g: &Source,
    p: &Source,
    candidates: &mut VecDeque<Candidate>,
) -> Result<Option<Row>, NoMemory>
    ensures { IfOk result (λ o. MatchOption o
        ((all_made ctx.now.sig.now ctx.now.ins.now g.now p.now candidates.old.items ≡ [])
        × (all_made ctx.now.sig.now ctx.now.ins.now g.now p.now candidates.new.items ≡ [])) (λ row.
        all_made ctx.now.sig.now ctx.now.ins.now g.now p.now candidates.old.items ≡ row
        ∷ all_made ctx.now.sig.now ctx.now.ins.now g.now p.now candidates.new.items)) }
{
    while let Some(candidate) = candidates.pop_front() {
        if let Some(row) = attempt(alloc, ctx, g, p, candidate)? {
            return Ok(Some(row));
        }
    }
    Ok(None)
}

// The row that an inference makes, if it succeeds.
#[tactic(auto, unfolding(crate::specs::Turn::row_made))]
fn attempt(
    alloc: Global,
    ctx: &Ctx,
    g: &Source,
    p: &Source,
    candidate: Candidate,
) -> Result<Option<Row>, NoMemory>
    ensures { IfOk result (λ o. o ≡ row_made ctx.now.sig.now ctx.now.ins.now g.now p.now candidate) }
{
    match candidate {
        Candidate::Factor { i, j } => {
            let made = factor(alloc, ctx, g.clause(), i, j)?;
            Ok(row(
                Rule::Factor {
                    p: g.number(),
                    i,
                    j,
                },
                made,
            ))
        }
        Candidate::Reflex { i } => {
            let made = reflex(alloc, ctx, g.clause(), i)?;
            Ok(row(Rule::Reflex { p: g.number(), i }, made))
        }
        Candidate::Resolve { i, j } => {
            let made = resolve(alloc, ctx, g.clause(), i, p.clause(), j)?;
            Ok(row(
                Rule::Resolve {
                    p: g.number(),
                    i,
                    q: p.number(),
                    j,
                },
                made,
            ))
        }
        Candidate::Para {
            way,
            j,
            side,
            i,
            path,
        } => match way {
            Way::Inward => {
                let made = paramodulate(
                    alloc,
                    ctx,
                    p.clause(),
                    j,
                    side,
                    g.clause(),
                    i,
                    path.as_slice(),
                )?;
                Ok(row(
                    Rule::Para {
                        p: p.number(),
                        j,
                        side,
                        q: g.number(),
                        i,
                        path,
                    },
                    made,
                ))
            }
            Way::Outward => {
                let made = paramodulate(
                    alloc,
                    ctx,
                    g.clause(),
                    j,
                    side,
                    p.clause(),
                    i,
                    path.as_slice(),
                )?;
                Ok(row(
                    Rule::Para {
                        p: g.number(),
                        j,
                        side,
                        q: p.number(),
                        i,
                        path,
                    },
                    made,
                ))
            }
        },
    }
}

/// A conclusion with its rule.
pub fn row(rule: Rule, made: Option<Made>) -> Option<Row>
    ensures { result ≡ option_map (row_of rule) made }
{
    match made {
        Some(made) => {
            let Made { clause, with } = made;
            Some(Row { rule, with, clause })
        }
        None => None,
    }
}
