/// How many bytes a text may have, and how many lists may be open in it.
#[derive(Clone, Copy, Debug, PartialEq, Eq)]
pub struct TextLimits {
    pub bytes: u32,
    pub depth: u32,
}
