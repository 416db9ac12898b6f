/// A row that waits: its number, and the weight of its clause.
#[derive(Clone, Copy, Debug, PartialEq, Eq)]
pub struct WaitRow {
    pub number: u32,
    pub weight: u32,
}
