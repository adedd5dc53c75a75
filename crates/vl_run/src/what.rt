use vl_values::SessionNo;
use vl_values::key::Key;
use vl_values::reply::Reply;

/// What the core tells of a statement.
#[derive(Drop)]
pub enum What {
    /// An action was done, and another one is due.
    More,
    /// This key, which the action must obtain, is held by a shard session of this client session. The same
    /// action is due; it was answered so this many times.
    Held { by: SessionNo, key: Key, tries: u32 },
    /// The statement is answered.
    Reply(Reply),
    /// The ask is no event, and nothing has changed.
    Stray,
}
