use vl_run::deed::Deed;
use vl_run::fault::Fault;
use vl_values::ShardNo;

/// What a step of a commit did: the shard that it went to, its deed, and what it met.
#[derive(Drop)]
pub(crate) struct Dealt {
    pub visits: Option<ShardNo>,
    pub deed: Deed,
    pub fault: Option<Fault>,
}
