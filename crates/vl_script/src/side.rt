/// On which side of its work a carry to a shard is lost.
#[derive(Clone, Copy, Debug, PartialEq, Eq)]
pub enum Side {
    /// The request is lost, and the shard hasn't seen it.
    Before,
    /// The answer is lost, and the shard has done its work.
    After,
}
