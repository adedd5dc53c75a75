use vl_values::ShardNo;
use vl_values::bytes::Bytes;

/// How far a claim has come.
#[derive(Drop)]
pub enum Stage {
    /// The entry is to be inserted.
    First,
    /// An entry stands that names this keyspace id: whether a row of the owner on the shard of that has it is
    /// to be looked at.
    Check { ksid: Bytes, shard: ShardNo },
    /// No row has the entry that stands: it is to be redirected.
    Put,
}
