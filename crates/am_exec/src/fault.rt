ghost use Rattle.std.specs.Prelude.{◌≡◌};
ghost use Rattle.am_exec.specs.declared.fault.ExecKind.TheVariants.{NoMemory as Memory};

use am_term::{Name, NoMemory};

/// Why an item of a unit can't be run by terms. `NotSet` names the first operand that holds nothing.
#[derive(Debug, Drop)]
pub enum ExecKind {
    UnknownRoutine,
    WrongCount,
    NotSet(Name),
    WrongSort,
    SetTwice,
    BadDeclaration,
    OutputNotSet,
    TooLarge,
    NoMemory,
}

/// The first faulty item of a unit and the first kind that holds of it. Item 1 is the head; then come
/// the declarations, the statements and the end. Of `NoMemory` the item is 0.
#[derive(Debug, Drop)]
pub struct ExecFault {
    pub item: u32,
    pub kind: ExecKind,
}

impl From<NoMemory> for ExecFault {
    ghost from_gives = { λ _ f. f ≡ record { item = 0; kind = Memory } };

    fn from(_error: NoMemory) -> ExecFault {
        ExecFault {
            item: 0,
            kind: ExecKind::NoMemory,
        }
    }
}
