use am_search::{Entry, Fate};
use am_simplify::Reason;
use am_term::NoMemory;
use std::alloc::Global;

/// Adds the numbers of the chosen rows, with a blank before each.
pub fn push_chosen(alloc: Global, text: &mut String, choices: &[u32]) -> Result<(), NoMemory> {
    for number in choices {
        let word = number.to_string(alloc)?;
        text.push(' ')?;
        text.push_str(word.as_str())?;
    }
    Ok(())
}

/// Adds the fates of the inferred rows, with a blank before each.
pub fn push_fates(alloc: Global, text: &mut String, entries: &[Entry]) -> Result<(), NoMemory> {
    for entry in entries {
        let word = fate_text(alloc, entry.fate)?;
        text.push(' ')?;
        text.push_str(word.as_str())?;
    }
    Ok(())
}

fn fate_text(alloc: Global, fate: Fate) -> Result<String, NoMemory> {
    match fate {
        Fate::Kept(number) => Ok(format!(in alloc; "kept-{number}")?),
        Fate::Rewritten => Ok(String::from_str(alloc, "rewritten")?),
        Fate::Dropped(reason) => reason_text(alloc, reason),
        Fate::Closed => Ok(String::from_str(alloc, "closed")?),
        Fate::Last => Ok(String::from_str(alloc, "last")?),
    }
}

fn reason_text(alloc: Global, reason: Reason) -> Result<String, NoMemory> {
    match reason {
        Reason::Tautology => Ok(String::from_str(alloc, "tautology")?),
        Reason::Wide => Ok(String::from_str(alloc, "wide")?),
        Reason::Heavy => Ok(String::from_str(alloc, "heavy")?),
        Reason::AnswerNotComputable => Ok(String::from_str(alloc, "not-computable")?),
        Reason::OpenAnswer => Ok(String::from_str(alloc, "open")?),
        Reason::Subsumed(number) => Ok(format!(in alloc; "subsumed-{number}")?),
    }
}
