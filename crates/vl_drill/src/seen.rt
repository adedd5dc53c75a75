/// What a turn depends on of a session.
#[derive(Clone, Copy, Debug)]
pub struct Seen {
    /// Whether it has a statement in progress.
    pub busy: bool,
    /// Whether it has an open transaction.
    pub tx: bool,
}
