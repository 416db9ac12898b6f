ghost use Rattle.std.specs.Prelude.{◌≡◌, map, IfOk};
ghost use Rattle.am_plan.specs.Names.{Named, name_of_term as name_under};
ghost use Rattle.am_plan.specs.Fingerprints.{fingerprint as fingerprint_of_term};

use crate::application::Application;
use crate::fingerprint_index::FingerprintIndex;
use crate::fingerprinting::fingerprint_of;
use crate::places::behind;
use am_term::{Name, NoMemory, Term};
use sqlite_items::Items;
use std::alloc::Global;

/// Terms with their names, and an index of the terms' fingerprints.
#[derive(Drop)]
pub struct NamedTerms<'a> {
    pub entries: Items<(Name, Application<'a>)>,
    index: FingerprintIndex,
    ghost agrees: { index ≡ map (λ (e : Named). fingerprint_of_term e.1) entries },
}

/// The terms with their names, ready to be looked up.
pub fn indexed<'a>(
    alloc: Global,
    entries: Items<(Name, Application<'a>)>,
) -> Result<NamedTerms<'a>, NoMemory>
    ensures { IfOk result (λ names. names.entries ≡ entries.entry) }
{
    let index = index_of(alloc, entries.as_slice())?;
    Ok(NamedTerms { entries, index })
}

// The index of the terms' fingerprints.
fn index_of(alloc: Global, entries: &[(Name, Application)]) -> Result<FingerprintIndex, NoMemory>
    ensures { IfOk result (λ index. index ≡ map (λ (e : Named). fingerprint_of_term e.1) entries.now) }
{
    let mut index = FingerprintIndex::new(alloc);
    let mut rest = entries;
    while let [entry, behind @ ..] = rest {
        index.push(entry.1.fingerprint())?;
        rest = behind;
    }
    Ok(index)
}

/// The name of a term; the empty text where no call makes it. Takes no memory.
#[tactic(auto, using(crate::proofs::FingerprintLaws::naming))]
pub fn name_of<'a>(names: &'a NamedTerms, term: &Term) -> &'a str
    ensures { result.now ≡ name_under names.now.entries term.now }
{
    match names.index.place(fingerprint_of(term)) {
        None => "",
        Some(place) => listed_name(behind(names.entries.as_slice(), place), term),
    }
}

// The name of a term, by comparing it with each.
fn listed_name<'a>(entries: &'a [(Name, Application)], term: &Term) -> &'a str
    ensures { result.now ≡ name_under entries.now term.now }
{
    let mut rest = entries;
    while let [entry, behind @ ..] = rest {
        if entry.1.is_term(term) {
            return entry.0.as_str();
        }
        rest = behind;
    }
    ""
}

/// The name of a symbol at terms; the empty text where no call makes it. Takes no memory.
#[tactic(auto, using(crate::proofs::FingerprintLaws::naming))]
pub fn name_at<'a>(names: &'a NamedTerms, term: &Application) -> &'a str
    ensures { result.now ≡ name_under names.now.entries term.now }
{
    match names.index.place(term.fingerprint()) {
        None => "",
        Some(place) => listed_at(behind(names.entries.as_slice(), place), term),
    }
}

// The name of a symbol at terms, by comparing it with each.
fn listed_at<'a>(entries: &'a [(Name, Application)], term: &Application) -> &'a str
    ensures { result.now ≡ name_under entries.now term.now }
{
    let mut rest = entries;
    while let [entry, behind @ ..] = rest {
        if entry.1.is_same(term) {
            return entry.0.as_str();
        }
        rest = behind;
    }
    ""
}
