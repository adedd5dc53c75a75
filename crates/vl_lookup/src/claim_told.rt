use vl_catalog::LookupNo;
use vl_values::key::Key;
use vl_values::limit::Limit;
use vl_values::lost_why::LostWhy;
use vl_values::{SessionNo, ShardNo};

/// What a step of a claim tells.
#[derive(Drop)]
pub enum ClaimTold {
    /// An action was done, and another is due.
    More,
    /// The entry names the row's keyspace id, and is locked.
    Done,
    /// A key that the action must obtain is held by a shard session of another; the same action is due.
    Held {
        by: SessionNo,
        key: Key,
    },
    /// The transaction itself removes the entry of this key. No shard was asked.
    SelfHeld {
        key: Key,
    },
    /// The owner's row of this key, on this shard, has the lookup's value.
    Duplicate {
        lookup: LookupNo,
        shard: ShardNo,
        key: Key,
    },
    /// The shard session was lost.
    Lost {
        shard: ShardNo,
        why: LostWhy,
    },
    /// The shard's device failed.
    Device {
        shard: ShardNo,
    },
    /// A quantity has reached its limit.
    Limit {
        what: Limit,
        count: u64,
    },
    /// Memory was refused.
    Memory,
}
