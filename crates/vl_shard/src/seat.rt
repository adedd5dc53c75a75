use vl_port::opened::Opened;
use vl_port::who::Who;

/// A shard session that was opened, lost or not.
#[derive(Clone, Copy, Debug, PartialEq, Eq)]
pub struct Seat {
    pub who: Who,
    pub opened: Opened,
}
