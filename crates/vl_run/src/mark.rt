/// What an act did on its shard.
#[derive(Clone, Copy, Debug, PartialEq, Eq)]
pub enum Mark {
    /// Its session was opened and no more: a key was held by another, or a limit was reached.
    Opens,
    /// It obtained its keys and wrote nothing.
    Takes,
    /// It gave entries by which the statement's route goes.
    Looks,
    /// It gave rows of the statement's table.
    Reads,
    /// It obtained its key and wrote a pending version.
    Writes,
}
