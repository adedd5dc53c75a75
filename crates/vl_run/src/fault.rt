use vl_values::lost_why::LostWhy;

/// What the act or the commit of an event met.
#[derive(Clone, Copy, Debug, PartialEq, Eq)]
pub enum Fault {
    /// Its shard session was lost, or the link lost the read.
    Lost(LostWhy),
    /// The shard's device failed.
    Device,
}
