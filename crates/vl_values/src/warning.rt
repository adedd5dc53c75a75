use crate::error_text::ErrorText;
use crate::lost_why::LostWhy;
use crate::piece::{Piece, joined};
use crate::shard_name::ShardName;

/// What a statement that was done leaves to be told: the commit of a post session failed, so that
/// entries of lookup tables that it would have removed may stay. A shard is named as `keyspace/range`.
#[derive(Drop)]
pub enum Warning {
    /// The shard session was lost.
    PostLost { shard: ShardName, why: LostWhy },
    /// The shard's device failed.
    PostDevice { shard: ShardName },
}

impl Warning {
    ghost use Rattle.std.specs.Prelude.{◌≡◌};
    ghost use Rattle.vl_values.specs.Warning.{warning_code, warning_text};

    /// The code, as MySQL numbers it.
    pub fn code(&self) -> u16
        ensures { result ≡ warning_code self.now }
    {
        match self {
            Warning::PostLost { .. } => 1105,
            Warning::PostDevice { .. } => 1105,
        }
    }

    /// The text, cut after 512 bytes. It takes no memory.
    pub fn text(&self) -> ErrorText
        ensures { result ≡ warning_text self.now }
    {
        match self {
            Warning::PostLost { shard, why } => joined(&[
                Piece::Text(b"Post commit failed: lost "),
                Piece::Text(shard.as_slice()),
                Piece::Text(b" ("),
                Piece::Why(*why),
                Piece::Text(b")"),
            ]),
            Warning::PostDevice { shard } => joined(&[
                Piece::Text(b"Post commit failed: device of "),
                Piece::Text(shard.as_slice()),
            ]),
        }
    }
}
