use vl_values::SessionNo;
use vl_values::key::Key;
use vl_values::reply::Reply;

/// What a program tells of a step.
#[derive(Drop)]
pub enum ProgramTold {
    /// The action was done, and another one is due.
    More,
    /// This key, which the action must obtain, is held by another shard session, of this client session.
    /// The same action is due; it was answered so this many times.
    Held { by: SessionNo, key: Key, tries: u32 },
    /// The statement is answered, and its program is over. Where it says that no transaction stays open,
    /// the transaction is still to be ended: committed at an `Ok`, rolled back as a whole at a refusal.
    Reply(Reply),
}
