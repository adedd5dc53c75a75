use crate::mark::Mark;
use vl_port::act::Act;
use vl_port::who::Who;
use vl_values::ShardNo;

/// What was done on a shard in an event: at most one act or one commit.
#[derive(Drop)]
pub enum Deed {
    /// Nothing was done.
    Nothing,
    /// An act of a shard session, or a read without one, that the shard did.
    Acts {
        who: Who,
        shard: ShardNo,
        act: Act,
        mark: Mark,
    },
    /// A commit of a shard session, that the shard did.
    Commits {
        who: Who,
        shard: ShardNo,
    },
    /// A commit of a shard session that wasn't done.
    Fails {
        who: Who,
        shard: ShardNo,
    },
}
