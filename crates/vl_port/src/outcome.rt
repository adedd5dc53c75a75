use vl_values::lost_why::LostWhy;

/// What an act came to on its shard, without what it gave.
#[derive(Clone, Copy, Debug, PartialEq, Eq)]
pub enum Outcome {
    /// Memory was refused: nothing was done.
    Refused,
    /// Its session was opened and no more: a key was held by another, or a quantity has reached its limit.
    Opened,
    /// It obtained its keys and wrote nothing.
    Took,
    /// It obtained its key and wrote a pending version.
    Wrote,
    /// Its session was lost, or the link lost the read.
    Lost(LostWhy),
    /// The shard's device failed.
    Device,
}
