use vl_values::lost_why::LostWhy;

/// Why a shard session's commit wasn't answered as done.
#[derive(Clone, Copy, Debug, PartialEq, Eq, Drop)]
pub enum Failure {
    /// The session was lost.
    Lost(LostWhy),
    /// The shard's device failed.
    Device,
}
