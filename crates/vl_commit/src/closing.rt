ghost use Rattle.std.specs.Prelude.{◌≡◌, ◌≤◌, ◌-◌, ℕ, length};
ghost use Rattle.vl_port.specs.Calls.{IsSamePort};
ghost use Rattle.vl_port.specs.Others.{LeavesOthers};
ghost use Rattle.vl_port.specs.Serving.{Serves};
ghost use Rattle.vl_port.specs.Transaction.{IsIn, last_tx};
ghost use Rattle.vl_commit.specs.Closing.{AreClosed};
ghost use Rattle.vl_commit.specs.Sessions.{AreLeft, HasNothingLeft, sessions};

use crate::sessions::{session_at, session_count};
use vl_port::port::ShardPort;
use vl_port::tx_state::TxState;

/// Closes the sessions from this place on.
pub(crate) fn close_from<P: ShardPort>(port: &mut P, tx: &TxState, from: usize)
    requires left { AreLeft tx.now from (P.count port.old) (P.told port.old).shards }
    requires number { tx.now.number ≤ last_tx }
    requires within { from ≤ length (sessions tx.now) }
    ensures closed { AreClosed tx.now from (length (sessions tx.now) - from) (P.told port.old) (P.told port.new) }
    ensures same { IsSamePort (P.catalog port.old) (P.count port.old) (P.catalog port.new) (P.count port.new) }
{
    for n in from..session_count(tx) {
        if let Some((group, shard)) = session_at(tx, n) {
            port.close(tx.who(group), shard);
        }
    }
}

/// Rolls a transaction back: each of its shard sessions is closed, lost or not, with what it held and
/// changed. It asks neither link nor device, takes no memory and can't fail.
pub fn roll_back<P: ShardPort>(port: &mut P, tx: TxState)
    requires sessions { IsIn tx (P.count port.old) (P.told port.old).shards }
    requires number { tx.number ≤ last_tx }
    requires serves { Serves (P.catalog port.old) (P.count port.old) (P.told port.old).shards }

    // Each session is closed, in the order of a commit, and nothing is left of the transaction.
    ensures closed { AreClosed tx 0 (length (sessions tx)) (P.told port.old) (P.told port.new) }
    ensures nothing { HasNothingLeft tx (P.count port.new) (P.told port.new).shards }

    // What the next call asks for, and what other transactions have is left to them.
    ensures serves { Serves (P.catalog port.new) (P.count port.new) (P.told port.new).shards }
    ensures same { IsSamePort (P.catalog port.old) (P.count port.old) (P.catalog port.new) (P.count port.new) }
    ensures others { LeavesOthers tx.number (P.told port.old).shards (P.told port.new).shards }
    // No shard goes down.
    ensures incarnations { (shard : ℕ) → ((P.told port.new).shards shard).incarnation ≡ ((P.told port.old).shards shard).incarnation }
{
    close_from(port, &tx, 0);
}
