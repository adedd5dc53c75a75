/// The first keyword of a statement.
#[derive(Clone, Copy, Debug)]
pub enum Verb {
    Insert,
    Select,
    Update,
    Delete,
    Begin,
    Start,
    Commit,
    Rollback,
    Set,
    Use,
    Show,
}
