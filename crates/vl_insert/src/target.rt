use vl_values::ShardNo;
use vl_values::key::Key;

/// Where a row is inserted: its shard, and its key.
#[derive(Drop)]
pub struct Target {
    pub shard: ShardNo,
    pub key: Key,
}
