ghost use Rattle.std.specs.Prelude.{◌≡◌, IfOk, map, option_map};
ghost use Rattle.am_example.specs.ExampleTheory.{te_sorts, te_parents, te_reps, te_copies};

use am_term::{Name, NoMemory, SortId};
use am_theory::Rep;
use sqlite_items::Items;
use std::alloc::Global;

/// The names of the sorts.
pub fn sort_names(alloc: Global) -> Result<Items<Name>, NoMemory>
    ensures { IfOk result (λ names. names ≡ te_sorts) }
{
    named(
        alloc,
        &[
            "time", "point", "surface", "utc", "et", "km", "angle", "body", "frame", "abcorr",
            "vector", "matrix",
        ],
    )
}

// The names of these texts.
fn named(alloc: Global, texts: &[&str]) -> Result<Items<Name>, NoMemory>
    ensures { IfOk result (λ names. names ≡ map (λ text. text.now) texts.now) }
{
    let mut names = Items::new(alloc);
    for text in texts {
        names.push(Name::new(alloc, text)?)?;
    }
    Ok(names)
}

/// The parents of the sorts: none has one.
pub fn parents(alloc: Global) -> Result<Items<Option<SortId>>, NoMemory>
    ensures { IfOk result (λ parents. parents ≡ te_parents) }
{
    Ok(Items::from_slice(alloc, &[None; 12])?)
}

/// The representations of the sorts.
pub fn reps(alloc: Global) -> Result<Items<Option<Rep>>, NoMemory>
    ensures { IfOk result (λ reps. reps ≡ te_reps) }
{
    let reps = [
        None,
        None,
        None,
        Some(Rep::Char(32)),
        Some(Rep::Double),
        Some(Rep::Double),
        Some(Rep::Double),
        Some(Rep::Integer),
        Some(Rep::Char(32)),
        Some(Rep::Char(5)),
        Some(Rep::DoubleVec(3)),
        Some(Rep::DoubleMat(3, 3)),
    ];
    Ok(Items::from_slice(alloc, &reps)?)
}

/// The copy routines of the sorts: those of the arrays.
pub fn copies(alloc: Global) -> Result<Items<Option<Name>>, NoMemory>
    ensures { IfOk result (λ copies. copies ≡ te_copies) }
{
    copied(
        alloc,
        &[
            None,
            None,
            None,
            None,
            None,
            None,
            None,
            None,
            None,
            None,
            Some("VEQU"),
            Some("MEQU"),
        ],
    )
}

// A name for each text that is there.
fn copied(alloc: Global, texts: &[Option<&str>]) -> Result<Items<Option<Name>>, NoMemory>
    ensures { IfOk result (λ copies. copies ≡ map (option_map (λ text. text.now)) texts.now) }
{
    let mut copies = Items::new(alloc);
    for text in texts {
        copies.push(name_if_any(alloc, *text)?)?;
    }
    Ok(copies)
}

// The name of a text, if there is one.
fn name_if_any(alloc: Global, text: Option<&str>) -> Result<Option<Name>, NoMemory>
    ensures { IfOk result (λ name. name ≡ option_map (λ text. text.now) text.entry) }
{
    match text {
        Some(text) => Ok(Some(Name::new(alloc, text)?)),
        None => Ok(None),
    }
}
