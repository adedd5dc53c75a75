use crate::entry_read::EntryRead;
use vl_values::ShardNo;

// All of a program that takes memory, made while its plan is still whole.
#[derive(Drop)]
pub(crate) struct Groundwork {
    pub(crate) entries: Vec<EntryRead>,
    // The shards, where no entry is to be read first.
    pub(crate) shards: Vec<ShardNo>,
}
