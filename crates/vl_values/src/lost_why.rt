/// Why a shard session was lost.
#[derive(Clone, Copy, Debug, PartialEq, Eq)]
pub enum LostWhy {
    /// The link lost this action.
    Link,
    /// The shard went down since: the session's incarnation and the shard's.
    Restarted { had: u64, current: u64 },
    /// The session was dropped.
    Dropped,
}
