use std::alloc::{AllocError, Global};
use vl_values::ShardNo;
use vl_values::key::Key;
use vl_values::row::Row;

/// A row of a shard, with its key. Found rows are ordered by shard, table and key.
#[derive(Debug, PartialEq, Eq, PartialOrd, Ord, Drop)]
pub struct Found {
    pub shard: ShardNo,
    pub key: Key,
    pub row: Row,
}

impl Found {
    ghost use Rattle.std.specs.Prelude.{◌≡◌, IfOk};

    pub(crate) fn copied(
        alloc: Global,
        shard: ShardNo,
        pair: &(Key, Row),
    ) -> Result<Found, AllocError>
        ensures { IfOk result (λ found. found ≡ record { shard = shard; key = pair.now.0; row = pair.now.1 }) }
    {
        let key = pair.0.copy(alloc)?;
        let row = pair.1.copy(alloc)?;
        Ok(Found { shard, key, row })
    }
}
