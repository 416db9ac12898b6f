ghost use Rattle.std.specs.Prelude.{◌≡◌, ◌++◌, ◌-◌, ◌∷◌, ◌<◌, ◌≤◌, ◌^◌, [], true, IfOk, length, slice_get, take};
ghost use Rattle.am_term.specs.Place.{with_member};
ghost use Rattle.am_clause.specs.Ancestors.{parents_of, with_parents, renumbered_row, kept_from, AreOrdered, AreAncestors};
ghost use Rattle.am_clause.specs.Marks.{flag_of, is_marked, falses, marked_by, stepped, counts_to, new_number as number_in, AreMarked};

use crate::copying::{copy_clause, copy_lists};
use crate::row::{Log, Row, Rule};
use am_term::NoMemory;
use sqlite_items::Items;
use std::alloc::Global;

/// The row with a number and all rows that it rests on, in order, numbered from 1.
#[tactic(auto, using(crate::proofs::KeptRows::ancestry_laws))]
pub fn ancestors(alloc: Global, log: &Log, last: u32) -> Result<Log, NoMemory>
    requires ordered { AreOrdered log.now.rows }
    requires from_one { 0 < last }
    requires there { last ≤ length log.now.rows }
    ensures { IfOk result (λ made. AreAncestors log.now.rows last made.rows) }
{
    let rows = log.rows.as_slice();
    let flags = marked(alloc, rows, last)?;
    let numbers = counted(alloc, flags.as_slice())?;
    let rows = kept(alloc, rows, flags.as_slice(), numbers.as_slice())?;
    Ok(Log { rows })
}

// Which of the rows up to a row it rests on.
fn marked(alloc: Global, rows: &[Row], last: u32) -> Result<Items<bool>, NoMemory>
    requires ordered { AreOrdered rows.now }
    requires from_one { 0 < last }
    ensures { IfOk result (λ flags. AreMarked rows.now last flags) }
{
    let mut flags = last_alone(alloc, last)?;
    let mut left = last as usize;
    while left > 0 {
        left -= 1;
        step(rows, left, &mut flags);
    }
    Ok(flags)
}

// Of so many rows the last one alone is marked.
#[tactic(auto, using(crate::proofs::Marking::marking))]
fn last_alone(alloc: Global, last: u32) -> Result<Items<bool>, NoMemory>
    requires { 0 < last }
    ensures { IfOk result (λ flags. flags ≡ falses (last - 1) ++ true ∷ []) }
{
    let mut flags = Items::new(alloc);
    for _i in 0..last - 1 {
        flags.push(false)?;
    }
    flags.push(true)?;
    Ok(flags)
}

// Where the row at a place is marked, its parents are marked too.
#[tactic(auto, using(crate::proofs::Marking::marking))]
fn step(rows: &[Row], place: usize, flags: &mut Items<bool>)
    ensures { flags.new ≡ stepped rows.now place flags.old }
{
    let Some(row) = sqlite_items::at(rows, place) else {
        return;
    };
    if is_set(flags.as_slice(), place) {
        mark_parents(&row.rule, flags);
    }
}

#[tactic(auto, using(crate::proofs::Marking::marking))]
fn is_set(flags: &[bool], place: usize) -> bool
    ensures { result ≡ flag_of (slice_get flags.now place) }
{
    match sqlite_items::at(flags, place) {
        Some(flag) => *flag,
        None => false,
    }
}

#[tactic(auto, using(crate::proofs::Marking::marking))]
fn mark(flags: &mut Items<bool>, number: u32)
    ensures { flags.new ≡ with_member flags.old number true }
{
    if number != 0 && number as usize <= flags.len() {
        flags.set(number as usize - 1, true);
    }
}

#[tactic(auto, using(crate::proofs::Marking::marking))]
fn mark_both(flags: &mut Items<bool>, first: u32, second: u32)
    ensures { flags.new ≡ with_member (with_member flags.old first true) second true }
{
    mark(flags, first);
    mark(flags, second);
}

#[tactic(auto, using(crate::proofs::Marking::marking))]
fn mark_parents(rule: &Rule, flags: &mut Items<bool>)
    ensures { flags.new ≡ marked_by flags.old (parents_of rule.now) }
{
    match rule {
        Rule::Axiom { .. } => {}
        Rule::Goal => {}
        Rule::Given { .. } => {}
        Rule::Factor { p, .. } => mark(flags, *p),
        Rule::Reflex { p, .. } => mark(flags, *p),
        Rule::Resolve { p, q, .. } => mark_both(flags, *p, *q),
        Rule::Para { p, q, .. } => mark_both(flags, *p, *q),
        Rule::Rewrite { p, q, .. } => mark_both(flags, *p, *q),
        Rule::Close { p } => mark(flags, *p),
    }
}

// For each row how many up to it are marked.
#[tactic(auto, using(crate::proofs::KeptRows::counting))]
fn counted(alloc: Global, flags: &[bool]) -> Result<Items<u32>, NoMemory>
    requires { length flags.now < 2 ^ 32 }
    ensures { IfOk result (λ numbers. numbers ≡ counts_to (is_marked flags.now) (length flags.now)) }
{
    let mut numbers = Items::new(alloc);
    let mut count: u32 = 0;
    for i in 0..flags.len() {
        if flags[i] {
            count += 1;
        }
        numbers.push(count)?;
    }
    Ok(numbers)
}

// The rows that are marked, with the numbers listed for their parents.
#[tactic(auto, using(crate::proofs::KeptRows::keeping))]
fn kept(
    alloc: Global,
    rows: &[Row],
    flags: &[bool],
    numbers: &[u32],
) -> Result<Items<Row>, NoMemory>
    requires { length flags.now ≤ length rows.now }
    ensures { IfOk result (λ made. made ≡ kept_from (is_marked flags.now) (number_in numbers.now) 1
        (take (length flags.now) rows.now)) }
{
    let mut made = Items::new(alloc);
    for i in 0..flags.len() {
        if flags[i] {
            made.push(renumber_row(alloc, &rows[i], numbers)?)?;
        }
    }
    Ok(made)
}

#[tactic(auto, using(crate::proofs::KeptRows::counting))]
fn renumber_row(alloc: Global, row: &Row, numbers: &[u32]) -> Result<Row, NoMemory>
    ensures { IfOk result (λ r. r ≡ renumbered_row (number_in numbers.now) row.now) }
{
    let rule = renumber_rule(alloc, &row.rule, numbers)?;
    let with = copy_lists(alloc, row.with.as_slice())?;
    let clause = copy_clause(alloc, &row.clause)?;
    Ok(Row { rule, with, clause })
}

#[tactic(auto, using(crate::proofs::KeptRows::counting))]
fn number_at(numbers: &[u32], number: u32) -> u32
    ensures { result ≡ number_in numbers.now number }
{
    if number == 0 {
        return 0;
    }
    match sqlite_items::at(numbers, number as usize - 1) {
        Some(new) => *new,
        None => 0,
    }
}

#[tactic(auto, using(crate::proofs::KeptRows::counting))]
fn renumber_rule(alloc: Global, rule: &Rule, numbers: &[u32]) -> Result<Rule, NoMemory>
    ensures { IfOk result (λ r. r ≡ with_parents (number_in numbers.now) rule.now) }
{
    match rule {
        Rule::Axiom { axiom, clause } => Ok(Rule::Axiom {
            axiom: *axiom,
            clause: *clause,
        }),
        Rule::Goal => Ok(Rule::Goal),
        Rule::Given { k } => Ok(Rule::Given { k: *k }),
        Rule::Factor { p, i, j } => Ok(Rule::Factor {
            p: number_at(numbers, *p),
            i: *i,
            j: *j,
        }),
        Rule::Reflex { p, i } => Ok(Rule::Reflex {
            p: number_at(numbers, *p),
            i: *i,
        }),
        Rule::Resolve { p, i, q, j } => Ok(Rule::Resolve {
            p: number_at(numbers, *p),
            i: *i,
            q: number_at(numbers, *q),
            j: *j,
        }),
        Rule::Para {
            p,
            j,
            side,
            q,
            i,
            path,
        } => Ok(Rule::Para {
            p: number_at(numbers, *p),
            j: *j,
            side: *side,
            q: number_at(numbers, *q),
            i: *i,
            path: Items::from_slice(alloc, path.as_slice())?,
        }),
        Rule::Rewrite {
            p,
            j,
            side,
            q,
            i,
            path,
        } => Ok(Rule::Rewrite {
            p: number_at(numbers, *p),
            j: *j,
            side: *side,
            q: number_at(numbers, *q),
            i: *i,
            path: Items::from_slice(alloc, path.as_slice())?,
        }),
        Rule::Close { p } => Ok(Rule::Close {
            p: number_at(numbers, *p),
        }),
    }
}
