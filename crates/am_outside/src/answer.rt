/// What a fetch came to: all the bytes, more bytes than the limit, a fault of the library, or no
/// memory for the bytes.
#[derive(Clone, Copy, Debug, PartialEq, Eq)]
pub enum Fetched {
    Done,
    TooLong,
    Failed,
    NoMemory,
}

/// What a put came to: all the bytes were taken, or a fault of the sink after some first bytes.
#[derive(Clone, Copy, Debug, PartialEq, Eq)]
pub enum Put {
    Done,
    Failed,
}
