ghost use Rattle.std.specs.Prelude.{◌≡◌, ◌≤◌, ◌+◌, ℕ, IfSome, None};
ghost use Rattle.vl_rules.specs.Order.{Checked};
ghost use Rattle.vl_sql.specs.declared.stmt.Stmt.{Stmt as AStmt};
ghost use Rattle.vl_port.specs.declared.carried.Carried.TheVariants.{Passed};
ghost use Rattle.vl_port.specs.declared.who.Who.{Who as AWho};
ghost use Rattle.vl_port.specs.Calls.{IsSamePort};
ghost use Rattle.vl_port.specs.Others.{LeavesOthers};
ghost use Rattle.vl_port.specs.Serving.{Serves};
ghost use Rattle.vl_port.specs.Transaction.{last_tx};
ghost use Rattle.vl_plan.specs.declared.plan.Plan.{Plan as APlan};
ghost use Rattle.vl_run.specs.declared.event.Event.{Event as AnEvent};
ghost use Rattle.vl_run.specs.Allowed.{IsAsked, Opens, now_of};
ghost use Rattle.vl_run.specs.Progress.{session};
ghost use Rattle.vl_run.specs.Run.{Run, next_tx};
ghost use Rattle.vl_run.specs.Session.{Owned};
ghost use Rattle.vl_replay.specs.Showing.{AreUp};
ghost use Rattle.vl_course.specs.Course.{IsUnused};
ghost use Rattle.vl_session.specs.declared.work.Work.TheVariants as works;
ghost use Rattle.vl_session.specs.Ready.{AreLeftMarked, AreYoung, IsReady, IsUnopened};
ghost use Rattle.vl_session.specs.Standing.{IsCommittingAt};
ghost use Rattle.vl_session.specs.Turning.{Answering, IsEventOf, IsTurn};
ghost use Rattle.vl_committing.specs.Telling.{CanBegin, IsDueIn};

use crate::dealing::{dealt, due_named, failure};
use crate::telling::told_as;
use std::alloc::Global;
use vl_catalog::Catalog;
use vl_commit::commit::Commit;
use vl_port::port::ShardPort;
use vl_session::purpose::Purpose;
use vl_session::turn::Turn;
use vl_values::TxNo;
use vl_values::reply::Reply;

/// Commits the shard session that is due, and tells what it came to. `next` is the number that the next transaction
/// gets, which a BEGIN opens at the end of its commit.
///
/// A commit of pre or main that failed ends the transaction; one of post leaves a warning.
pub fn run_commit<P: ShardPort>(
    alloc: Global,
    catalog: &Catalog,
    port: &mut P,
    next: TxNo,
    commit: Commit,
    reply: Reply,
    purpose: Purpose,
) -> Turn
    requires checked { Checked catalog.now }
    requires agree { P.catalog port.old ≡ catalog.now }
    requires serves { Serves catalog.now (P.count port.old) (P.told port.old).shards }
    requires ready { IsReady catalog.now (P.count port.old) (P.told port.old).shards (works.Committing commit reply purpose) }
    requires young { AreYoung (P.count port.old) (P.told port.old).shards }
    requires outcome { (P.told port.old).outcome ≡ None }
    // No shard has a session of the number that is next, and numbers are given up to the last one.
    requires unopened { (shard : ℕ) (who : AWho) → who.tx ≡ next → ((P.told port.old).shards shard).sessions who ≡ None }
    requires number { next ≤ last_tx + 1 }

    // The event that keeps the turn is an answer that the run allows, where the link passed the commit on and no shard
    // went down. A BEGIN whose number is gone is refused before its commit where the transaction has no sessions.
    ensures answering { (past : Run) (e : AnEvent) (stmt : AStmt) (plan : APlan) (own : Owned) → IsEventOf catalog.now past (P.count port.old) (P.told port.old).shards e stmt → IsTurn e result → IsCommittingAt catalog.now commit.tx.limits (now_of e past) e.session stmt plan own commit reply purpose → AreLeftMarked past commit (P.told port.old).shards → next ≡ next_tx past → IsUnopened past (P.count port.old) next (P.told port.old).shards → IsUnused past next → CanBegin commit.tx next purpose → (P.told port.new).way ≡ Passed → AreUp (P.count port.new) (P.told port.new).shards → Answering catalog.now commit.tx.limits past (P.count port.old) e result (P.told port.new).shards }
    // It opens a transaction where a BEGIN is answered.
    ensures opens { (past : Run) (e : AnEvent) (stmt : AStmt) (plan : APlan) (own : Owned) → IsAsked (session past e.session) e.request stmt → IsTurn e result → IsCommittingAt catalog.now commit.tx.limits (now_of e past) e.session stmt plan own commit reply purpose → next ≡ next_tx past → Opens past e stmt (session past e.session).owned e.opens }
    // A transaction that it opens has the next number.
    ensures opened { IfSome result.opens (λ number. (number ≡ next) × (number ≤ last_tx)) }
    // Where it goes on, another session is due.
    ensures due { IsDueIn result.work }

    // What the next call asks for.
    ensures ready { IsReady catalog.now (P.count port.new) (P.told port.new).shards result.work }
    ensures outcome { (P.told port.new).outcome ≡ None }
    ensures serves { Serves catalog.now (P.count port.new) (P.told port.new).shards }
    ensures port { IsSamePort (P.catalog port.old) (P.count port.old) (P.catalog port.new) (P.count port.new) }
    ensures others { LeavesOthers commit.tx.number (P.told port.old).shards (P.told port.new).shards }
{
    let mut commit = commit;
    let due = due_named(&commit);
    let count = commit.warnings().len();
    let told = commit.step(port);
    let _ = port.take_outcome();
    let why = failure(&told, &commit, count);
    let dealt = dealt(due, why);
    told_as(alloc, catalog, next, reply, purpose, dealt, commit, told)
}
