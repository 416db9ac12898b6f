ghost use Rattle.std.specs.Prelude.{◌≡◌};
ghost use Rattle.am_top.specs.Codes.{code_of};

/// What a command came to. Its number is the program's exit status. This project's own.
#[derive(Clone, Copy, Debug, PartialEq, Eq)]
pub enum Status {
    /// The command is done.
    Ok,
    /// The words have no reading.
    Usage,
    /// A file has a fault.
    File,
    /// The search used its budget up.
    Spent,
    /// The search has nothing left to try.
    Exhausted,
    /// A text was refused.
    Refused,
    /// A file could not be read.
    Read,
    /// A text could not be written.
    Write,
    /// No memory was left.
    NoMemory,
    /// Givens and axioms contradict each other.
    Contradiction,
    /// The text to print is too long.
    Long,
}

impl Status {
    /// The exit status, from 0 to 10. Takes no memory.
    pub fn code(&self) -> u8
        ensures { result ≡ code_of self.now }
    {
        match self {
            Status::Ok => 0,
            Status::Usage => 1,
            Status::File => 2,
            Status::Spent => 3,
            Status::Exhausted => 4,
            Status::Refused => 5,
            Status::Read => 6,
            Status::Write => 7,
            Status::NoMemory => 8,
            Status::Contradiction => 9,
            Status::Long => 10,
        }
    }
}
