use crate::failure::Failure;
use vl_values::ShardNo;

/// The commit of a session of post that failed. What it would have deleted may stay.
#[derive(Clone, Copy, Debug, PartialEq, Eq, Drop)]
pub struct Warning {
    pub shard: ShardNo,
    pub why: Failure,
}
