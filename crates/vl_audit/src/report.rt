use crate::found::Found;
use vl_values::items::Items;

/// What an audit found, each list in order of shard, table and key, and each row once in it.
#[derive(Debug, Drop)]
pub struct Report {
    /// Rows that have a value of a lookup, and no entry that they need.
    pub missing: Items<Found>,
    /// Rows that have a value of a unique lookup which another row has, too.
    pub doubled: Items<Found>,
    /// Entries that no row needs.
    pub orphans: Items<Found>,
}
