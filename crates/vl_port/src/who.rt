use vl_values::group::Group;
use vl_values::{SessionNo, TxNo};

/// Who acts on a shard: the client session, its transaction, and the group of the shard session. A
/// read without a group has no shard session.
#[derive(Clone, Copy, Debug, PartialEq, Eq)]
pub struct Who {
    pub session: SessionNo,
    pub tx: TxNo,
    pub group: Option<Group>,
}
