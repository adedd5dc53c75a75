use crate::answer::Answer;

/// What became of an action that a transaction asked for.
#[derive(Drop)]
pub enum Asked {
    /// There was no memory to list the shard session: nothing was carried.
    Unlisted,
    /// It was carried, and answered.
    Answered(Answer),
}
