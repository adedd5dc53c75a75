/// A loss that a link is to play.
#[derive(Clone, Copy, Debug, PartialEq, Eq)]
pub struct Loss {
    /// Which message from now on it meets, counted from 1.
    pub nth: u64,
    /// Whether the answer is lost, and not the message.
    pub after: bool,
}
