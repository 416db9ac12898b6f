ghost use Rattle.std.specs.Prelude.{◌≡◌};
ghost use Rattle.am_check.specs.declared.reason.Stop.TheVariants.{Memory};

use am_exec::ExecKind;
use am_fortran::UnitKind;
use am_log::LogKind;
use am_term::NoMemory;

/// Why a text isn't accepted. Of two at one place the one named first here counts. No kind in it is `NoMemory`.
#[derive(Debug, Drop)]
pub enum Reason {
    /// The proof part isn't the text of a log.
    Log(LogKind),
    /// A parent of a row is no earlier row.
    NoSuchParent,
    /// What the row's rule names isn't there, or isn't of the kind that the rule needs.
    BadPlace,
    /// A list of terms doesn't bind its parent's variables.
    BadBindings,
    /// What the rule names isn't equal after the bindings.
    NotEqual,
    /// Both parents have answers, and their instances differ.
    AnswersDiffer,
    /// The conclusion isn't the instance as the rule states it, or isn't numbered by first occurrence.
    WrongConclusion,
    /// The last row has literals or no answer, or there is no row.
    NotFinal,
    /// The unit part isn't the text of a unit.
    Unit(UnitKind),
    /// The unit can't be run by terms.
    Exec(ExecKind),
    /// The outputs' terms aren't those of the last row's answer.
    Differs,
}

/// The outcome of a check: accepted, or the line of the first fault, from 1, and its reason.
#[derive(Debug, Drop)]
pub enum Verdict {
    Accepted,
    Refused { line: u32, reason: Reason },
}

/// Why a check ends before the end of the text.
#[derive(Debug, Drop)]
pub enum Stop {
    Memory,
    Fault { line: u32, reason: Reason },
}

impl From<NoMemory> for Stop {
    ghost from_gives = { λ _ stop. stop ≡ Memory };

    fn from(_error: NoMemory) -> Stop {
        Stop::Memory
    }
}
