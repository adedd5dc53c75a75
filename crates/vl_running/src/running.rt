ghost use Rattle.std.specs.Prelude.{◌≡◌, ◌<◌, ◌^◌, None};
ghost use Rattle.vl_rules.specs.Order.{Checked};
ghost use Rattle.vl_sql.specs.declared.stmt.Stmt.{Stmt as AStmt};
ghost use Rattle.vl_port.specs.Calls.{IsSamePort};
ghost use Rattle.vl_port.specs.Others.{LeavesOthers};
ghost use Rattle.vl_port.specs.Serving.{Serves};
ghost use Rattle.vl_plan.specs.declared.plan.Plan.{Plan as APlan};
ghost use Rattle.vl_run.specs.declared.event.Event.{Event as AnEvent};
ghost use Rattle.vl_run.specs.Allowed.{now_of};
ghost use Rattle.vl_run.specs.Run.{Run};
ghost use Rattle.vl_run.specs.Session.{Owned};
ghost use Rattle.vl_values.specs.declared.cause.Cause.TheVariants as causes;
ghost use Rattle.vl_values.specs.Reply.{refusal};
ghost use Rattle.vl_course_program.specs.Programs.{due_of};
ghost use Rattle.vl_course.specs.Answered.{AreMarked};
ghost use Rattle.vl_session.specs.declared.work.Work.TheVariants as works;
ghost use Rattle.vl_session.specs.Ready.{IsReady};
ghost use Rattle.vl_session.specs.Standing.{IsRunningAt};
ghost use Rattle.vl_running.specs.Ran.{IsRefusedAs, Ran, nothing, stays};
ghost use Rattle.vl_session.specs.Turning.{Answering, IsEventOf, IsTurn};

use crate::done::Done;
use crate::due::due;
use crate::due_act::DueAct;
use crate::refusing::refuse;
use crate::telling::tell;
use std::alloc::Global;
use vl_catalog::Catalog;
use vl_exec::program::Program;
use vl_port::port::ShardPort;
use vl_port::tx_state::TxState;
use vl_session::turn::Turn;
use vl_values::TxNo;
use vl_values::cause::Cause;
use vl_values::reply::Reply;

// Does the act that is due, and tells it.
fn advance<P: ShardPort>(
    alloc: Global,
    catalog: &Catalog,
    port: &mut P,
    opens: Option<TxNo>,
    tx: TxState,
    program: Program,
    due: Option<DueAct>,
) -> Turn
    requires checked { Checked catalog.now }
    requires agree { P.catalog port.old ≡ catalog.now }
    requires serves { Serves catalog.now (P.count port.old) (P.told port.old).shards }
    requires ready { IsReady catalog.now (P.count port.old) (P.told port.old).shards (works.Running tx program) }
    requires outcome { (P.told port.old).outcome ≡ None }
    requires due { due ≡ due_of tx program }
    ensures ran { Ran catalog.now (P.count port.old) tx program opens (P.told port.old) result (P.told port.new) }
    ensures ready { IsReady catalog.now (P.count port.new) (P.told port.new).shards result.work }
    ensures outcome { (P.told port.new).outcome ≡ None }
    ensures serves { Serves catalog.now (P.count port.new) (P.told port.new).shards }
    ensures port { IsSamePort (P.catalog port.old) (P.count port.old) (P.catalog port.new) (P.count port.new) }
    ensures others { LeavesOthers tx.number (P.told port.old).shards (P.told port.new).shards }
{
    let mut tx = tx;
    let mut program = program;
    let told = program.step(alloc, catalog, port, &mut tx);
    let outcome = port.take_outcome();
    let done = Done::of(due, outcome);
    tell(alloc, port, opens, tx, program, done, told)
}

// There was no memory for what is kept of the act that is due, which isn't done.
fn starve<P: ShardPort>(port: &mut P, opens: Option<TxNo>, tx: TxState, program: &Program) -> Turn
    requires serves { Serves (P.catalog port.old) (P.count port.old) (P.told port.old).shards }
    requires ready { IsReady (P.catalog port.old) (P.count port.old) (P.told port.old).shards (works.Running tx program.now) }
    requires outcome { (P.told port.old).outcome ≡ None }
    ensures refused { IsRefusedAs (stays tx program.now) tx opens nothing (refusal causes.OutOfMemory (stays tx program.now)) (P.told port.old) result (P.told port.new) }
    ensures ready { IsReady (P.catalog port.new) (P.count port.new) (P.told port.new).shards result.work }
    ensures outcome { (P.told port.new).outcome ≡ None }
    ensures serves { Serves (P.catalog port.new) (P.count port.new) (P.told port.new).shards }
    ensures port { IsSamePort (P.catalog port.old) (P.count port.old) (P.catalog port.new) (P.count port.new) }
    ensures others { LeavesOthers tx.number (P.told port.old).shards (P.told port.new).shards }
{
    let stays = !tx.single && !program.wrote();
    let reply = Reply::refusal(Cause::OutOfMemory, stays);
    refuse(port, opens, tx, Done::nothing(), reply, stays)
}

// The step, by its parts.
fn run<P: ShardPort>(
    alloc: Global,
    catalog: &Catalog,
    port: &mut P,
    opens: Option<TxNo>,
    tx: TxState,
    program: Program,
) -> Turn
    requires checked { Checked catalog.now }
    requires agree { P.catalog port.old ≡ catalog.now }
    requires serves { Serves catalog.now (P.count port.old) (P.told port.old).shards }
    requires ready { IsReady catalog.now (P.count port.old) (P.told port.old).shards (works.Running tx program) }
    requires outcome { (P.told port.old).outcome ≡ None }
    ensures ran { Ran catalog.now (P.count port.old) tx program opens (P.told port.old) result (P.told port.new) }
    ensures ready { IsReady catalog.now (P.count port.new) (P.told port.new).shards result.work }
    ensures outcome { (P.told port.new).outcome ≡ None }
    ensures serves { Serves catalog.now (P.count port.new) (P.told port.new).shards }
    ensures port { IsSamePort (P.catalog port.old) (P.count port.old) (P.catalog port.new) (P.count port.new) }
    ensures others { LeavesOthers tx.number (P.told port.old).shards (P.told port.new).shards }
{
    let Ok(due) = due(alloc, &tx, &program) else {
        return starve(port, opens, tx, &program);
    };
    advance(alloc, catalog, port, opens, tx, program, due)
}

// The limit of changes is a number of its type.
fn limit_fits(tx: &TxState)
    ensures { tx.now.limits.changes < 2 ^ 32 }
{
    let _changes = tx.limits.changes;
}

/// Does the action that is due of a statement's program, and tells what it came to. `opens` is the transaction that was
/// opened for it in the same event, if one was.
///
/// At the statement's end a transaction of its own is to be committed; a refusal that leaves no transaction open has ended
/// all of its shard sessions.
pub fn run_program<P: ShardPort>(
    alloc: Global,
    catalog: &Catalog,
    port: &mut P,
    opens: Option<TxNo>,
    tx: TxState,
    program: Program,
) -> Turn
    requires checked { Checked catalog.now }
    requires agree { P.catalog port.old ≡ catalog.now }
    requires serves { Serves catalog.now (P.count port.old) (P.told port.old).shards }
    requires ready { IsReady catalog.now (P.count port.old) (P.told port.old).shards (works.Running tx program) }
    requires outcome { (P.told port.old).outcome ≡ None }

    // The event that keeps the turn is an answer that the run allows, where a row that was written clashes with none.
    ensures answering { (past : Run) (e : AnEvent) (stmt : AStmt) (plan : APlan) (own : Owned) → IsEventOf catalog.now past (P.count port.old) (P.told port.old).shards e stmt → IsTurn e result → IsRunningAt catalog.now tx.limits (now_of e past) e.session stmt plan own tx program → AreMarked past tx.number (P.told port.old).shards → Answering catalog.now tx.limits past (P.count port.old) e result (P.told port.new).shards }
    ensures opened { result.opens ≡ opens }

    // What the next call asks for.
    ensures ready { IsReady catalog.now (P.count port.new) (P.told port.new).shards result.work }
    ensures outcome { (P.told port.new).outcome ≡ None }
    ensures serves { Serves catalog.now (P.count port.new) (P.told port.new).shards }
    ensures port { IsSamePort (P.catalog port.old) (P.count port.old) (P.catalog port.new) (P.count port.new) }
    // What other transactions have is left to them.
    ensures others { LeavesOthers tx.number (P.told port.old).shards (P.told port.new).shards }
{
    limit_fits(&tx);
    run(alloc, catalog, port, opens, tx, program)
}
