ghost use Rattle.std.specs.Prelude.{IfSome};
ghost use Rattle.am_theory.specs.Facts.{WellFormed};
ghost use Rattle.am_diagram.specs.Facts.{WellFormed as WellDrawn};

use crate::spelling::{push_chosen, push_fates};
use am_agenda::Chooser;
use am_diagram::{Diagram, diagrams_that_were_read_are_well_formed, read_diagram};
use am_search::{Entry, Limits, Outcome, search};
use am_term::NoMemory;
use am_theory::{Theory, read_theory, theories_that_were_read_are_well_formed};
use std::alloc::Global;

/// How the search of a theory and a diagram ends, as the program prints it.
pub fn search_answer(
    alloc: Global,
    theory: &[u8],
    diagram: &[u8],
    limits: Limits,
    chooser: Box<dyn Chooser>,
) -> Result<String, NoMemory> {
    let Some(theory) = theory_of(alloc, theory) else {
        return told(alloc, "no theory");
    };
    let Some(diagram) = diagram_of(alloc, &theory, diagram) else {
        return told(alloc, "no diagram");
    };
    if limits.budget < 1 || limits.budget > 100000 || limits.weight < 10 || limits.weight > 400 {
        return told(alloc, "no limits");
    }
    let outcome = search(alloc, &theory, &diagram, limits, chooser)?;
    outcome_text(alloc, &outcome)
}

fn outcome_text(alloc: Global, outcome: &Outcome) -> Result<String, NoMemory> {
    match outcome {
        Outcome::Found {
            log,
            entries,
            choices,
        } => {
            let rows = log.rows.len();
            let told = history_text(alloc, "found", entries.as_slice(), choices.as_slice())?;
            Ok(format!(in alloc; "{told}; {rows} rows")?)
        }
        Outcome::Contradiction {
            log,
            entries,
            choices,
        } => {
            let rows = log.rows.len();
            let told = history_text(
                alloc,
                "contradiction",
                entries.as_slice(),
                choices.as_slice(),
            )?;
            Ok(format!(in alloc; "{told}; {rows} rows")?)
        }
        Outcome::Exhausted { entries, choices } => {
            history_text(alloc, "exhausted", entries.as_slice(), choices.as_slice())
        }
        Outcome::Spent { entries, choices } => {
            history_text(alloc, "spent", entries.as_slice(), choices.as_slice())
        }
    }
}

// The end, the number of inferences, the choices and the fates.
fn history_text(
    alloc: Global,
    end: &str,
    entries: &[Entry],
    choices: &[u32],
) -> Result<String, NoMemory> {
    let count = entries.len();
    let mut text = format!(in alloc; "{end}: {count} inferences; chosen")?;
    push_chosen(alloc, &mut text, choices)?;
    text.push_str("; fates")?;
    push_fates(alloc, &mut text, entries)?;
    Ok(text)
}

fn theory_of(alloc: Global, text: &[u8]) -> Option<Theory>
    ensures { IfSome result (λ t. WellFormed t) }
{
    theories_that_were_read_are_well_formed();
    match read_theory(alloc, text) {
        Ok(theory) => Some(theory),
        Err(_) => None,
    }
}

fn diagram_of(alloc: Global, theory: &Theory, text: &[u8]) -> Option<Diagram>
    requires { WellFormed theory.now }
    ensures { IfSome result (λ d. WellDrawn theory.now d) }
{
    diagrams_that_were_read_are_well_formed();
    match read_diagram(alloc, theory, text) {
        Ok(diagram) => Some(diagram),
        Err(_) => None,
    }
}

fn told(alloc: Global, words: &str) -> Result<String, NoMemory> {
    Ok(String::from_str(alloc, words)?)
}
