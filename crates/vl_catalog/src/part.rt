use crate::change::Change;
use vl_values::TxNo;
use vl_values::group::Group;
use vl_values::items::Items;

/// What one shard session of a transaction changed on its shard, as it commits.
#[derive(Drop)]
pub struct Part {
    pub tx: TxNo,
    pub group: Group,
    pub changes: Items<Change>,
}
