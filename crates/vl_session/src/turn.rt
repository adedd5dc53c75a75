use crate::work::Work;
use vl_run::deed::Deed;
use vl_run::ends::Ends;
use vl_run::fault::Fault;
use vl_run::what::What;
use vl_values::{ShardNo, TxNo};

/// What one ask came to: the parts of its event, what is told, and what the session has in hand then.
#[derive(Drop)]
pub struct Turn {
    pub work: Work,
    /// The transaction that was opened, if one was.
    pub opens: Option<TxNo>,
    /// The shard that its act or commit went to, also where that was lost.
    pub visits: Option<ShardNo>,
    pub deed: Deed,
    /// What the act or the commit met, if a session was lost or a device failed.
    pub fault: Option<Fault>,
    /// Which shard sessions ended behind the deed.
    pub ends: Ends,
    pub what: What,
}
