use crate::deed::Deed;
use crate::ends::Ends;
use crate::fault::Fault;
use crate::request::Request;
use crate::tag::Tag;
use vl_values::{SessionNo, ShardNo, TxNo};

/// One event of a run, as the trace keeps it. Its number is its place.
#[derive(Drop)]
pub struct Event {
    /// The client session.
    pub session: SessionNo,
    pub request: Request,
    /// The transaction that was opened in it, if one was.
    pub opens: Option<TxNo>,
    /// The shard that its act or commit went to, also where that was lost.
    pub visits: Option<ShardNo>,
    pub deed: Deed,
    /// What the act or the commit met, if a session was lost or a device failed.
    pub fault: Option<Fault>,
    /// Which shard sessions ended behind the deed.
    pub ends: Ends,
    pub told: Tag,
}
