ghost use Rattle.std.specs.Prelude.{ℕ, Option};
ghost use Rattle.vl_port.specs.Losses.{IsLossCounted, Losses, Plays};

use crate::carried::Carried;
use vl_values::ShardNo;

/// What stands between the gateway and the shards, and may lose messages.
pub trait Link {
    // how often it has lost a message
    ghost faults: { Self → ℕ };

    // the losses that it is still to play, where they are known
    ghost losses: { Self → Option Losses };

    /// The way that the next message to a shard takes.
    fn carry(&mut self, shard: ShardNo) -> Carried
        ensures counted { IsLossCounted (faults self.old) result (faults self.new) }
        ensures played { Plays (losses self.old) shard result (losses self.new) };
}
