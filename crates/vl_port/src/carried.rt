/// The way that a link took a message to a shard.
#[derive(Clone, Copy, Debug, PartialEq, Eq)]
pub enum Carried {
    /// The message arrived, and its answer came back.
    Passed,
    /// The message was lost on its way: nothing was done.
    LostBefore,
    /// The message arrived, and its answer was lost: what was asked for was done.
    LostAfter,
}
