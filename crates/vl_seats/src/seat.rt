use vl_session::work::Work;
use vl_values::bytes::Bytes;

/// What is kept of a joined client session between two asks.
#[derive(Drop)]
pub struct Seat {
    /// The number of its last event.
    pub at: u64,
    /// Whether autocommit is on.
    pub auto: bool,
    /// The chosen keyspace.
    pub keyspace: Option<Bytes>,
    pub work: Work,
}
