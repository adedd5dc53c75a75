use vl_port::act::Act;
use vl_values::ShardNo;

/// The read of a lookup's entries for one value, on their shard.
#[derive(Drop)]
pub struct EntryRead {
    pub shard: ShardNo,
    pub find: Act,
}
