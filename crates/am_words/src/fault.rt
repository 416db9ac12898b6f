/// Why words have no command.
#[derive(Debug, Drop, Clone, Copy, PartialEq, Eq)]
pub enum WordsFault {
    /// The words have no reading.
    Usage,
    /// No memory is left.
    NoMemory,
}
