ghost use Rattle.std.specs.Prelude.{◌≡◌, ◌≤◌, ◌↔◌, IsTrue, [], None};
ghost use Rattle.vl_port.specs.Calls.{IsSamePort};
ghost use Rattle.vl_port.specs.Others.{LeavesOthers};
ghost use Rattle.vl_port.specs.Serving.{Serves};
ghost use Rattle.vl_port.specs.Transaction.{IsIn, last_tx};
ghost use Rattle.vl_commit.specs.Sessions.{sessions};
ghost use Rattle.vl_replay.specs.Showing.{IsOwned};
ghost use Rattle.vl_session.specs.Ready.{IsReady};
ghost use Rattle.vl_run.specs.declared.ends.Ends.TheVariants as ends;
ghost use Rattle.vl_running.specs.Ran.{IsEnded, turn_of};

use crate::done::Done;
use crate::refusing::refuse;
use std::alloc::Global;
use vl_commit::commit::Commit;
use vl_port::port::ShardPort;
use vl_port::tx_state::TxState;
use vl_run::ends::Ends;
use vl_run::what::What;
use vl_session::purpose::Purpose;
use vl_session::turn::Turn;
use vl_session::work::Work;
use vl_values::TxNo;
use vl_values::cause::Cause;
use vl_values::reply::Reply;

// Whether the transaction has no shard session.
fn has_none(tx: &TxState) -> bool
    ensures { IsTrue result ↔ (sessions tx.now ≡ []) }
{
    tx.pre.is_empty() && tx.main.is_empty() && tx.post.is_empty()
}

/// The turn of a step that ends no shard session, where this is in hand then.
pub fn over(opens: Option<TxNo>, done: Done, work: Work, what: What) -> Turn
    ensures { result ≡ turn_of opens done work ends.Nobody what }
{
    let Done {
        visits,
        deed,
        fault,
    } = done;
    Turn {
        work,
        opens,
        visits,
        deed,
        fault,
        ends: Ends::Nobody,
        what,
    }
}

/// The turn of a statement that was done, with this reply. A transaction of its own is to be committed, where it has a shard
/// session; without memory for that it is refused.
pub fn end<P: ShardPort>(
    alloc: Global,
    port: &mut P,
    opens: Option<TxNo>,
    tx: TxState,
    done: Done,
    reply: Reply,
) -> Turn
    requires sessions { IsIn tx (P.count port.old) (P.told port.old).shards }
    requires number { tx.number ≤ last_tx }
    requires owned { IsOwned tx.number tx.session (P.count port.old) (P.told port.old).shards }
    requires serves { Serves (P.catalog port.old) (P.count port.old) (P.told port.old).shards }
    requires outcome { (P.told port.old).outcome ≡ None }
    ensures ended { IsEnded tx opens done reply (P.told port.old) result (P.told port.new) }
    ensures ready { IsReady (P.catalog port.new) (P.count port.new) (P.told port.new).shards result.work }
    ensures outcome { (P.told port.new).outcome ≡ None }
    ensures serves { Serves (P.catalog port.new) (P.count port.new) (P.told port.new).shards }
    ensures port { IsSamePort (P.catalog port.old) (P.count port.old) (P.catalog port.new) (P.count port.new) }
    ensures others { LeavesOthers tx.number (P.told port.old).shards (P.told port.new).shards }
{
    if !tx.single {
        return over(opens, done, Work::Idle { tx: Some(tx) }, What::Reply(reply));
    }
    if has_none(&tx) {
        return over(opens, done, Work::Idle { tx: None }, What::Reply(reply));
    }
    match Commit::start(alloc, tx) {
        Ok(commit) => over(
            opens,
            done,
            Work::Committing {
                commit,
                reply,
                purpose: Purpose::Statement,
            },
            What::More,
        ),
        Err((tx, _)) => refuse(
            port,
            opens,
            tx,
            done,
            Reply::refusal(Cause::OutOfMemory, false),
            false,
        ),
    }
}
