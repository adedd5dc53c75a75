use crate::fate::Fate;

/// What a shard keeps of a shard session that was opened and hasn't ended.
#[derive(Clone, Copy, Debug, PartialEq, Eq)]
pub struct Opened {
    /// The shard's incarnation at the opening.
    pub incarnation: u64,
    pub fate: Fate,
}
