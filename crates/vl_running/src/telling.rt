ghost use Rattle.std.specs.Prelude.{◌≡◌, ◌≤◌, None};
ghost use Rattle.vl_port.specs.Calls.{IsSamePort};
ghost use Rattle.vl_port.specs.Others.{LeavesOthers};
ghost use Rattle.vl_port.specs.Serving.{Serves};
ghost use Rattle.vl_port.specs.Transaction.{IsIn, last_tx};
ghost use Rattle.vl_exec.specs.Making.{IsMade};
ghost use Rattle.vl_replay.specs.Showing.{IsOwned};
ghost use Rattle.vl_select.specs.Answering.{GoesOn};
ghost use Rattle.vl_session.specs.Ready.{IsReady};
ghost use Rattle.vl_running.specs.Ran.{IsReplied, IsToldAs};

use crate::done::Done;
use crate::ending::{end, over};
use crate::refusing::refuse;
use std::alloc::Global;
use vl_exec::program::Program;
use vl_port::port::ShardPort;
use vl_port::tx_state::TxState;
use vl_run::what::What;
use vl_session::turn::Turn;
use vl_session::work::Work;
use vl_statement::program_told::ProgramTold;
use vl_values::TxNo;
use vl_values::reply::Reply;

// The turn of a statement that its program has answered.
fn answer<P: ShardPort>(
    alloc: Global,
    port: &mut P,
    opens: Option<TxNo>,
    tx: TxState,
    done: Done,
    reply: Reply,
) -> Turn
    requires sessions { IsIn tx (P.count port.old) (P.told port.old).shards }
    requires number { tx.number ≤ last_tx }
    requires owned { IsOwned tx.number tx.session (P.count port.old) (P.told port.old).shards }
    requires serves { Serves (P.catalog port.old) (P.count port.old) (P.told port.old).shards }
    requires outcome { (P.told port.old).outcome ≡ None }
    ensures replied { IsReplied tx opens done reply (P.told port.old) result (P.told port.new) }
    ensures ready { IsReady (P.catalog port.new) (P.count port.new) (P.told port.new).shards result.work }
    ensures outcome { (P.told port.new).outcome ≡ None }
    ensures serves { Serves (P.catalog port.new) (P.count port.new) (P.told port.new).shards }
    ensures port { IsSamePort (P.catalog port.old) (P.count port.old) (P.catalog port.new) (P.count port.new) }
    ensures others { LeavesOthers tx.number (P.told port.old).shards (P.told port.new).shards }
{
    match reply {
        Reply::Err {
            code,
            why,
            tx: stays,
        } => refuse(
            port,
            opens,
            tx,
            done,
            Reply::Err {
                code,
                why,
                tx: stays,
            },
            stays,
        ),
        reply => end(alloc, port, opens, tx, done, reply),
    }
}

/// The turn of a step, by what the program told.
pub fn tell<P: ShardPort>(
    alloc: Global,
    port: &mut P,
    opens: Option<TxNo>,
    tx: TxState,
    program: Program,
    done: Done,
    told: ProgramTold,
) -> Turn
    requires sessions { IsIn tx (P.count port.old) (P.told port.old).shards }
    requires number { tx.number ≤ last_tx }
    requires owned { IsOwned tx.number tx.session (P.count port.old) (P.told port.old).shards }
    requires made { GoesOn told → IsMade (P.catalog port.old) (P.count port.old) tx.limits.tries program }
    requires serves { Serves (P.catalog port.old) (P.count port.old) (P.told port.old).shards }
    requires outcome { (P.told port.old).outcome ≡ None }
    ensures told { IsToldAs told tx program opens done (P.told port.old) result (P.told port.new) }
    ensures ready { IsReady (P.catalog port.new) (P.count port.new) (P.told port.new).shards result.work }
    ensures outcome { (P.told port.new).outcome ≡ None }
    ensures serves { Serves (P.catalog port.new) (P.count port.new) (P.told port.new).shards }
    ensures port { IsSamePort (P.catalog port.old) (P.count port.old) (P.catalog port.new) (P.count port.new) }
    ensures others { LeavesOthers tx.number (P.told port.old).shards (P.told port.new).shards }
{
    match told {
        ProgramTold::More => over(opens, done, Work::Running { tx, program }, What::More),
        ProgramTold::Held { by, key, tries } => over(
            opens,
            done,
            Work::Running { tx, program },
            What::Held { by, key, tries },
        ),
        ProgramTold::Reply(reply) => answer(alloc, port, opens, tx, done, reply),
    }
}
