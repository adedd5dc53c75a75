use crate::failure::Failure;
use crate::warning::Warning;
use vl_values::ShardNo;
use vl_values::group::Group;
use vl_values::items::Items;

/// What a commit tells of a step.
#[derive(Drop)]
pub enum CommitTold {
    /// A session was committed, or its commit in post failed, and another session is due.
    More,
    /// All sessions were dealt with; the commits of post that failed, in their order.
    Ok {
        warnings: Items<Warning>,
    },
    /// The commit of a session of pre or main failed, which ended it, and all sessions behind it were
    /// closed. So many commits of the group were answered as done before, of how many.
    Failed {
        group: Group,
        done: u32,
        of: u32,
        shard: ShardNo,
        why: Failure,
    },
}
