ghost use Rattle.std.specs.Prelude.{◌≡◌, ◌↔◌, ◌<◌, ◌≤◌, Bool, false, Contains, IsTrue};
ghost use Rattle.vl_base.specs.Faults.{Rose};
ghost use Rattle.vl_values.specs.declared.lost_why.LostWhy.TheVariants as why;
ghost use Rattle.vl_port.specs.declared.answer.Answer.TheVariants as answers;
ghost use Rattle.vl_port.specs.declared.asked.Asked.TheVariants as asks;
ghost use Rattle.vl_port.specs.Asking.{HasAsked, IsSameTx, IsUncut, Lists, reader_in};
ghost use Rattle.vl_port.specs.Calls.{HasActed, IsSamePort};
ghost use Rattle.vl_port.specs.Others.{LeavesOthers};
ghost use Rattle.vl_port.specs.Placing.{IsActOn};
ghost use Rattle.vl_port.specs.Serving.{Serves};
ghost use Rattle.vl_port.specs.Taking.{takes_keys};
ghost use Rattle.vl_port.specs.Transaction.{Enlists, IsIn, last_tx, listed, session_of};
ghost use Rattle.vl_port.specs.declared.tx_state.TxState.{TxState as ATxState};

use crate::act::Act;
use crate::answer::Answer;
use crate::asked::Asked;
use crate::port::ShardPort;
use crate::tx_state::TxState;
use vl_values::ShardNo;
use vl_values::group::Group;

// What the answer makes of the transaction, which listed the session for it.
fn note(tx: &mut TxState, group: Group, shard: ShardNo, added: bool, answer: &Answer)
    ensures more { tx.old.changes ≤ tx.new.changes }
    ensures lists { (before : ATxState) → Enlists before group shard added tx.old → Lists before group shard answer.now tx.new }
{
    match answer {
        Answer::Memory => {
            if added {
                tx.strike(group);
            }
        }
        Answer::Done => tx.count_change(),
        _ => {}
    }
}

// The action, and that the session is listed; or nothing.
fn asked<P: ShardPort>(
    port: &mut P,
    tx: &mut TxState,
    group: Group,
    shard: ShardNo,
    act: &Act,
) -> Asked
    requires shard { shard < P.count port.old }
    requires number { tx.old.number ≤ last_tx }
    requires fits { IsActOn (P.catalog port.old) shard act.now }
    ensures asked { HasAsked (P.told port.old) tx.old group shard act.now result tx.new (P.told port.new) }
    ensures port { IsSamePort (P.catalog port.old) (P.count port.old) (P.catalog port.new) (P.count port.new) }
    ensures more { tx.old.changes ≤ tx.new.changes }
{
    let Ok(added) = tx.enlist(group, shard) else {
        return Asked::Unlisted;
    };
    let answer = port.act(tx.who(group), shard, act);
    note(tx, group, shard, added, &answer);
    Asked::Answered(answer)
}

/// One action of the transaction's session of a group on a shard, and its answer. The session is listed
/// from now on, but where memory was refused; a write that was done is counted.
pub fn ask<P: ShardPort>(
    port: &mut P,
    tx: &mut TxState,
    group: Group,
    shard: ShardNo,
    act: &Act,
) -> Asked
    requires shard { shard < P.count port.old }
    requires number { tx.old.number ≤ last_tx }
    requires fits { IsActOn (P.catalog port.old) shard act.now }
    ensures asked { HasAsked (P.told port.old) tx.old group shard act.now result tx.new (P.told port.new) }
    ensures port { IsSamePort (P.catalog port.old) (P.count port.old) (P.catalog port.new) (P.count port.new) }

    // A loss by the link is told only where the link's count rose in this call, of a session that wasn't cut.
    ensures cause { IsUncut ((P.told port.old).shards shard) (session_of tx.old group) → result ≡ asks.Answered (answers.Lost why.Link) → Rose (P.told port.old).faults.link (P.told port.new).faults.link }

    // What the next call asks for.
    ensures tx { IsSameTx tx.old tx.new }
    ensures sessions { IsIn tx.old (P.count port.old) (P.told port.old).shards → IsIn tx.new (P.count port.new) (P.told port.new).shards }
    ensures serves { Serves (P.catalog port.old) (P.count port.old) (P.told port.old).shards → Serves (P.catalog port.new) (P.count port.new) (P.told port.new).shards }
    // What other transactions have is left to them.
    ensures others { Serves (P.catalog port.old) (P.count port.old) (P.told port.old).shards → LeavesOthers tx.old.number (P.told port.old).shards (P.told port.new).shards }
{
    asked(port, tx, group, shard, act)
}

/// A read without locks for the transaction, by its session of the group where that is listed on the
/// shard, and else without one. It lists nothing.
pub fn look<P: ShardPort>(
    port: &mut P,
    tx: &TxState,
    group: Group,
    shard: ShardNo,
    act: &Act,
) -> Answer
    requires shard { shard < P.count port.old }
    requires number { tx.now.number ≤ last_tx }
    requires plain { takes_keys act.now ≡ false }
    requires fits { IsActOn (P.catalog port.old) shard act.now }
    ensures acts { (there : Bool) × (IsTrue there ↔ Contains (listed tx.now group) shard) × HasActed (P.told port.old) (reader_in tx.now group there) shard act.now result (P.told port.new) }
    ensures port { IsSamePort (P.catalog port.old) (P.count port.old) (P.catalog port.new) (P.count port.new) }
    ensures cause { ((there : Bool) → IsUncut ((P.told port.old).shards shard) (reader_in tx.now group there)) → result ≡ answers.Lost why.Link → Rose (P.told port.old).faults.link (P.told port.new).faults.link }

    // What the next call asks for.
    ensures sessions { IsIn tx.now (P.count port.old) (P.told port.old).shards → IsIn tx.now (P.count port.new) (P.told port.new).shards }
    ensures serves { Serves (P.catalog port.old) (P.count port.old) (P.told port.old).shards → Serves (P.catalog port.new) (P.count port.new) (P.told port.new).shards }
    // What other transactions have is left to them.
    ensures others { Serves (P.catalog port.old) (P.count port.old) (P.told port.old).shards → LeavesOthers tx.now.number (P.told port.old).shards (P.told port.new).shards }
{
    port.act(tx.reader(group, shard), shard, act)
}
