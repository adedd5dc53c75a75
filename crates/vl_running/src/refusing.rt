ghost use Rattle.std.specs.Prelude.{◌≡◌, ◌≤◌, None};
ghost use Rattle.vl_port.specs.Calls.{IsSamePort};
ghost use Rattle.vl_port.specs.Others.{LeavesOthers};
ghost use Rattle.vl_port.specs.Serving.{Serves};
ghost use Rattle.vl_port.specs.Transaction.{IsIn, last_tx};
ghost use Rattle.vl_replay.specs.Showing.{IsOwned};
ghost use Rattle.vl_session.specs.Ready.{IsReady};
ghost use Rattle.vl_running.specs.Ran.{IsRefusedAs};

use crate::done::Done;
use vl_commit::closing::roll_back;
use vl_port::port::ShardPort;
use vl_port::tx_state::TxState;
use vl_run::ends::Ends;
use vl_run::what::What;
use vl_session::turn::Turn;
use vl_session::work::Work;
use vl_values::TxNo;
use vl_values::reply::Reply;

/// The turn of a statement that was refused. Where no transaction stays open, all shard sessions of it are closed.
pub fn refuse<P: ShardPort>(
    port: &mut P,
    opens: Option<TxNo>,
    tx: TxState,
    done: Done,
    reply: Reply,
    stays: bool,
) -> Turn
    requires sessions { IsIn tx (P.count port.old) (P.told port.old).shards }
    requires number { tx.number ≤ last_tx }
    requires owned { IsOwned tx.number tx.session (P.count port.old) (P.told port.old).shards }
    requires serves { Serves (P.catalog port.old) (P.count port.old) (P.told port.old).shards }
    requires outcome { (P.told port.old).outcome ≡ None }
    ensures refused { IsRefusedAs stays tx opens done reply (P.told port.old) result (P.told port.new) }
    ensures ready { IsReady (P.catalog port.new) (P.count port.new) (P.told port.new).shards result.work }
    ensures outcome { (P.told port.new).outcome ≡ None }
    ensures serves { Serves (P.catalog port.new) (P.count port.new) (P.told port.new).shards }
    ensures port { IsSamePort (P.catalog port.old) (P.count port.old) (P.catalog port.new) (P.count port.new) }
    ensures others { LeavesOthers tx.number (P.told port.old).shards (P.told port.new).shards }
{
    let Done {
        visits,
        deed,
        fault,
    } = done;
    if stays {
        return Turn {
            work: Work::Idle { tx: Some(tx) },
            opens,
            visits,
            deed,
            fault,
            ends: Ends::Nobody,
            what: What::Reply(reply),
        };
    }
    let number = tx.number;
    roll_back(port, tx);
    // A close says nothing of the outcome, which is to be None at the next step.
    let _ = port.take_outcome();
    Turn {
        work: Work::Idle { tx: None },
        opens,
        visits,
        deed,
        fault,
        ends: Ends::Whole { tx: number },
        what: What::Reply(reply),
    }
}
