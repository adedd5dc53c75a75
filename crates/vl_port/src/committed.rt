use vl_values::lost_why::LostWhy;

/// What a shard answers to a commit.
#[derive(Clone, Copy, Debug, PartialEq, Eq)]
pub enum Committed {
    Done,
    Lost(LostWhy),
    Device,
}
