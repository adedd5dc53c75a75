/// The two files of a shard.
#[derive(Clone, Copy, Debug, PartialEq, Eq)]
pub enum FileSide {
    A,
    B,
}
