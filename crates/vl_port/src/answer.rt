ghost use Rattle.std.specs.Prelude.{◌≡◌};
ghost use Rattle.vl_port.specs.Outcomes.{outcome_of};

use crate::found_rows::FoundRows;
use crate::outcome::Outcome;
use vl_values::SessionNo;
use vl_values::key::Key;
use vl_values::limit::Limit;
use vl_values::lost_why::LostWhy;
use vl_values::row::Row;

/// What a shard answers to an act.
#[derive(Drop)]
pub enum Answer {
    /// A write was done.
    Done,
    /// A `RemoveIf` met no version, or one with another value: nothing was written, and the key is
    /// locked.
    Unchanged,
    /// The rows that a read gave, in the order of their keys.
    Rows(FoundRows),
    /// An `Insert` met this standing version; the key is locked.
    Found { key: Key, row: Row },
    /// A key that the act must obtain is held by a shard session of another; the least such key.
    Held { by: SessionNo, key: Key },
    /// The shard session was lost.
    Lost(LostWhy),
    /// The shard's device failed.
    Device,
    /// A quantity has reached its limit.
    Limit { what: Limit, count: u64 },
    /// Memory was refused; nothing has changed.
    Memory,
}

impl Answer {
    /// What the act came to.
    pub fn outcome(&self) -> Outcome
        ensures { result ≡ outcome_of self.now }
    {
        match self {
            Answer::Done => Outcome::Wrote,
            Answer::Unchanged | Answer::Rows(_) | Answer::Found { .. } => Outcome::Took,
            Answer::Held { .. } | Answer::Limit { .. } => Outcome::Opened,
            Answer::Lost(why) => Outcome::Lost(*why),
            Answer::Device => Outcome::Device,
            Answer::Memory => Outcome::Refused,
        }
    }
}
