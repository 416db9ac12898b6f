ghost use Rattle.std.specs.Prelude.{IfOk, ◌≡◌};
ghost use Rattle.std.specs.List.{filter_map, filter};
ghost use Rattle.am_search.specs.Outcomes.{last_number as last_of};
ghost use Rattle.am_search.specs.Plain.{entries_of, entry_of, is_inferred};
ghost use Rattle.am_search.specs.Rules.{rules_in};

use crate::fate::{Entry, Prepared};
use crate::rows::find;
use crate::setting::Setting;
use am_clause::{Row, Rule};
use am_term::NoMemory;
use sqlite_items::Items;
use std::alloc::Global;

/// The rules and the fates of the inferred rows.
#[tactic(auto, using(crate::specs::Rules::rules_laws))]
pub fn list_entries(
    alloc: Global,
    setting: &Setting,
    rows: &[Row],
    fates: &[Prepared],
) -> Result<Vec<Entry>, NoMemory>
    ensures { IfOk result (λ es. es.items ≡ entries_of (rules_in setting.now) rows.now fates.now) }
{
    entries_after(alloc, setting.starting, rows, fates)
}

fn entries_after(
    alloc: Global,
    starting: u32,
    rows: &[Row],
    fates: &[Prepared],
) -> Result<Vec<Entry>, NoMemory>
    ensures { IfOk result (λ es. es.items ≡ filter_map (entry_of rows.now) (filter (is_inferred starting) fates.now)) }
{
    let mut entries = Vec::new(alloc);
    let mut rest = fates;
    while let [prepared, behind @ ..] = rest {
        if starting < prepared.number {
            if let Some(entry) = entry(alloc, rows, *prepared)? {
                entries.push(entry)?;
            }
        }
        rest = behind;
    }
    Ok(entries)
}

/// The number of the row that got its fate last, or 0. Takes no memory.
pub fn last_number(fates: &[Prepared]) -> u32
    ensures { result ≡ last_of fates.now }
{
    let mut number: u32 = 0;
    let mut rest = fates;
    while let [prepared, behind @ ..] = rest {
        number = prepared.number;
        rest = behind;
    }
    number
}

fn entry(alloc: Global, rows: &[Row], prepared: Prepared) -> Result<Option<Entry>, NoMemory>
    ensures { IfOk result (λ o. o ≡ entry_of rows.now prepared) }
{
    match find(rows, prepared.number) {
        Some(row) => {
            let rule = copy_rule(alloc, &row.rule)?;
            Ok(Some(Entry {
                rule,
                fate: prepared.fate,
            }))
        }
        None => Ok(None),
    }
}

fn copy_rule(alloc: Global, rule: &Rule) -> Result<Rule, NoMemory>
    ensures { IfOk result (λ r. r ≡ rule.now) }
{
    match rule {
        Rule::Axiom { axiom, clause } => Ok(Rule::Axiom {
            axiom: *axiom,
            clause: *clause,
        }),
        Rule::Goal => Ok(Rule::Goal),
        Rule::Given { k } => Ok(Rule::Given { k: *k }),
        Rule::Factor { p, i, j } => Ok(Rule::Factor {
            p: *p,
            i: *i,
            j: *j,
        }),
        Rule::Reflex { p, i } => Ok(Rule::Reflex { p: *p, i: *i }),
        Rule::Resolve { p, i, q, j } => Ok(Rule::Resolve {
            p: *p,
            i: *i,
            q: *q,
            j: *j,
        }),
        Rule::Para {
            p,
            j,
            side,
            q,
            i,
            path,
        } => {
            let path = Items::from_slice(alloc, path.as_slice())?;
            Ok(Rule::Para {
                p: *p,
                j: *j,
                side: *side,
                q: *q,
                i: *i,
                path,
            })
        }
        Rule::Rewrite {
            p,
            j,
            side,
            q,
            i,
            path,
        } => {
            let path = Items::from_slice(alloc, path.as_slice())?;
            Ok(Rule::Rewrite {
                p: *p,
                j: *j,
                side: *side,
                q: *q,
                i: *i,
                path,
            })
        }
        Rule::Close { p } => Ok(Rule::Close { p: *p }),
    }
}
