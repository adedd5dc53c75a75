use vl_port::act::Act;
use vl_values::ShardNo;
use vl_values::group::Group;
use vl_values::row::Row;

/// An action that is to be done on a shard.
#[derive(Drop)]
pub struct Action {
    /// The group of the shard session that does it.
    pub group: Group,
    pub shard: ShardNo,
    pub act: Act,
    /// The row that was found and is written by this; none where the statement found none.
    pub old: Option<Row>,
}
