//! Key ranges, the ring of a keyspace's shards, and the two primary vindexes.
//!
//! A sharded keyspace is cut into key ranges over its keyspace ids, which are byte strings in
//! lexicographic order. A range has its start and not its end, and an empty side is open. The layer
//! above relies on one promise: each keyspace id is in exactly one range of a `Ring`, and
//! `Ring::shard_of` names it. `numeric` and `binary_md5` turn a row's column value into its keyspace
//! id. Nothing here takes memory.
#![tactic(auto)]

mod bad_range;
mod key_range;
mod order;
mod primary;
mod reading;
mod ring;
mod ring_fault;
mod side;
#[cfg(test)]
mod tests;

pub use crate::bad_range::BadRange;
pub use crate::key_range::KeyRange;
pub use crate::primary::{binary_md5, numeric};
pub use crate::ring::Ring;
pub use crate::ring_fault::RingFault;
pub use crate::side::Side;
pub use vl_values::ShardNo;
