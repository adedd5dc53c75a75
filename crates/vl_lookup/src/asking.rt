ghost use Rattle.std.specs.Prelude.{◌≡◌, ◌<◌, ◌≤◌, List};
ghost use Rattle.vl_port.specs.declared.claimed.Claimed.{Claimed as AClaimed};
ghost use Rattle.vl_port.specs.Asking.{HasAsked, IsSameTx};
ghost use Rattle.vl_port.specs.Calls.{IsSamePort};
ghost use Rattle.vl_port.specs.Others.{LeavesOthers};
ghost use Rattle.vl_port.specs.Placing.{IsActOn};
ghost use Rattle.vl_port.specs.Serving.{Serves};
ghost use Rattle.vl_port.specs.Transaction.{IsIn, last_tx};
ghost use Rattle.vl_lookup.specs.Stepping.{with_claimed};

use vl_port::act::Act;
use vl_port::asked::Asked;
use vl_port::asking::ask;
use vl_port::port::ShardPort;
use vl_port::tx_state::TxState;
use vl_values::ShardNo;
use vl_values::group::Group;

/// One action for a transaction whose list of claimed keys was taken out: what it makes of the transaction,
/// it makes of that with any list.
pub(crate) fn ask_aside<P: ShardPort>(
    port: &mut P,
    tx: &mut TxState,
    group: Group,
    shard: ShardNo,
    act: &Act,
) -> Asked
    requires shard { shard < P.count port.old }
    requires number { tx.old.number ≤ last_tx }
    requires fits { IsActOn (P.catalog port.old) shard act.now }
    ensures asked { (list : List AClaimed) → HasAsked (P.told port.old) (with_claimed list tx.old) group shard act.now result (with_claimed list tx.new) (P.told port.new) }
    ensures port { IsSamePort (P.catalog port.old) (P.count port.old) (P.catalog port.new) (P.count port.new) }
    ensures tx { IsSameTx tx.old tx.new }
    ensures sessions { IsIn tx.old (P.count port.old) (P.told port.old).shards → IsIn tx.new (P.count port.new) (P.told port.new).shards }
    ensures serves { Serves (P.catalog port.old) (P.count port.old) (P.told port.old).shards → Serves (P.catalog port.new) (P.count port.new) (P.told port.new).shards }
    ensures others { Serves (P.catalog port.old) (P.count port.old) (P.told port.old).shards → LeavesOthers tx.old.number (P.told port.old).shards (P.told port.new).shards }
{
    ask(port, tx, group, shard, act)
}
