use vl_port::act::Act;
use vl_values::ShardNo;

/// The insertion of a row, by the transaction's main session on a shard.
#[derive(Drop)]
pub struct Insertion {
    pub shard: ShardNo,
    pub act: Act,
}
