/// Why no response was read.
#[derive(Clone, Copy, Debug, PartialEq, Eq)]
pub enum BadHandshake {
    /// Memory ran out for a response.
    Memory,
    /// The payload is no response. The place is that of the field which is wrong, counted from 0, or the
    /// payload's length where it ends too early.
    Wrong { at: usize },
}
