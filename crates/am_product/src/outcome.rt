/// What is made of a log.
#[derive(Debug, Drop)]
pub enum Product {
    /// The text of the log and, behind it, that of the subroutine that its last row's answer is planned as.
    Text(Vec<u8>),
    /// That text has more than 16,777,216 bytes.
    Long,
}
