ghost use Rattle.std.specs.Prelude.{◌≡◌, nat_lt, Some, None};
ghost use Rattle.vl_rules.specs.Order.{Checked};
ghost use Rattle.vl_run.specs.declared.what.What.TheVariants as whats;
ghost use Rattle.vl_run.specs.Allowed.{failed_one};
ghost use Rattle.vl_port.specs.Transaction.{last_tx};
ghost use Rattle.vl_session.specs.declared.work.Work.TheVariants as works;
ghost use Rattle.vl_course_commit.specs.Committing.{completed};
ghost use Rattle.vl_course_commit.specs.Dealing.{cause_of};
ghost use Rattle.vl_committing.specs.Telling.{begins, counted, ended, over, refused, told_as, turn};

use crate::dealing::failed_one;
use crate::dealt::Dealt;
use std::alloc::Global;
use vl_catalog::Catalog;
use vl_commit::commit::Commit;
use vl_commit::commit_told::CommitTold;
use vl_commit::failure::Failure;
use vl_port::tx_state::TxState;
use vl_run::ends::Ends;
use vl_run::what::What;
use vl_session::purpose::Purpose;
use vl_session::turn::Turn;
use vl_session::work::Work;
use vl_text::shard_name;
use vl_values::cause::Cause;
use vl_values::group::Group;
use vl_values::limit::Limit;
use vl_values::reply::Reply;
use vl_values::{ShardNo, TxNo};

/// Transactions are numbered up to this one.
const LAST_TX: TxNo = 4611686018427387903;

/// The commit goes on.
pub(crate) fn going_on(dealt: Dealt, commit: Commit, reply: Reply, purpose: Purpose) -> Turn
    ensures { result ≡ turn dealt (works.Committing commit reply purpose) None (failed_one dealt.deed) whats.More }
{
    let Dealt {
        visits,
        deed,
        fault,
    } = dealt;
    let ends = failed_one(&deed);
    Turn {
        work: Work::Committing {
            commit,
            reply,
            purpose,
        },
        opens: None,
        visits,
        deed,
        fault,
        ends,
        what: What::More,
    }
}

/// A refusal, behind which nothing is left of the transaction of this number.
pub(crate) fn refused(dealt: Dealt, number: TxNo, reply: Reply) -> Turn
    ensures { result ≡ refused dealt number reply }
{
    let Dealt {
        visits,
        deed,
        fault,
    } = dealt;
    Turn {
        work: Work::Idle { tx: None },
        opens: None,
        visits,
        deed,
        fault,
        ends: Ends::Whole { tx: number },
        what: What::Reply(reply),
    }
}

/// Why a commit of pre or main failed, as its refusal tells it.
pub(crate) fn cause(
    catalog: &Catalog,
    group: Group,
    done: u32,
    of: u32,
    shard: ShardNo,
    why: Failure,
) -> Cause
    requires { Checked catalog.now }
    ensures { result ≡ cause_of catalog.now group done of shard why }
{
    let shard = shard_name(catalog, shard);
    match why {
        Failure::Lost(why) => Cause::CommitLost {
            group,
            done,
            of,
            shard,
            why,
        },
        Failure::Device => Cause::CommitDevice {
            group,
            done,
            of,
            shard,
        },
    }
}

// The reply with so many warnings, where a transaction is open or not, and autocommit is on or not.
fn completed(reply: Reply, count: u16, tx: bool, auto: bool) -> Reply
    ensures { result ≡ completed count tx auto reply }
{
    match reply {
        Reply::Ok {
            affected,
            found,
            ..
        } => Reply::Ok {
            affected,
            found,
            warnings: count,
            tx,
            auto,
        },
        Reply::Rows { columns, rows, .. } => Reply::Rows {
            columns,
            rows,
            tx,
            auto,
        },
        Reply::Err { code, why, tx } => Reply::Err { code, why, tx },
    }
}

// How many warnings a reply tells.
fn counted(count: usize) -> u16
    ensures { result ≡ counted count }
{
    if 65535 < count {
        return 65535;
    }
    count as u16
}

// The transaction is over.
fn over(dealt: Dealt, reply: Reply) -> Turn
    ensures { result ≡ over dealt reply }
{
    let Dealt {
        visits,
        deed,
        fault,
    } = dealt;
    let ends = failed_one(&deed);
    Turn {
        work: Work::Idle { tx: None },
        opens: None,
        visits,
        deed,
        fault,
        ends,
        what: What::Reply(reply),
    }
}

// Another transaction opens.
fn opened(dealt: Dealt, tx: TxState, reply: Reply) -> Turn
    ensures { result ≡ turn dealt (works.Idle (Some tx)) (Some tx.number) (failed_one dealt.deed) (whats.Reply reply) }
{
    let Dealt {
        visits,
        deed,
        fault,
    } = dealt;
    let ends = failed_one(&deed);
    let opens = Some(tx.number);
    Turn {
        work: Work::Idle { tx: Some(tx) },
        opens,
        visits,
        deed,
        fault,
        ends,
        what: What::Reply(reply),
    }
}

// BEGIN opens the transaction of this number, unless numbers have run out.
fn begins(alloc: Global, dealt: Dealt, tx: &TxState, next: TxNo, count: u16, reply: Reply) -> Turn
    ensures { result ≡ begins (nat_lt last_tx next) dealt tx.now next count reply }
{
    if LAST_TX < next {
        let full = Cause::Limit {
            what: Limit::Transactions,
            count: LAST_TX,
        };
        return refused(dealt, tx.number, Reply::refusal(full, false));
    }
    let new = TxState::new(alloc, next, tx.session, tx.limits, tx.auto, false);
    opened(dealt, new, completed(reply, count, true, tx.auto))
}

/// All sessions were dealt with, and so many commits of post failed.
pub(crate) fn ended(
    alloc: Global,
    purpose: Purpose,
    dealt: Dealt,
    tx: &TxState,
    next: TxNo,
    count: usize,
    reply: Reply,
) -> Turn
    ensures { result ≡ ended purpose dealt tx.now next (counted count) reply }
{
    let count = counted(count);
    match purpose {
        Purpose::Statement | Purpose::Commit => {
            over(dealt, completed(reply, count, false, tx.auto))
        }
        Purpose::Begin => begins(alloc, dealt, tx, next, count, reply),
        Purpose::Autocommit => over(dealt, completed(reply, count, false, true)),
    }
}

/// What the step is told as.
pub(crate) fn told_as(
    alloc: Global,
    catalog: &Catalog,
    next: TxNo,
    reply: Reply,
    purpose: Purpose,
    dealt: Dealt,
    commit: Commit,
    told: CommitTold,
) -> Turn
    requires { Checked catalog.now }
    ensures { result ≡ told_as catalog.now next reply purpose dealt commit told }
{
    match told {
        CommitTold::More => going_on(dealt, commit, reply, purpose),
        CommitTold::Ok { warnings } => {
            let count = warnings.as_slice().len();
            ended(alloc, purpose, dealt, commit.tx(), next, count, reply)
        }
        CommitTold::Failed {
            group,
            done,
            of,
            shard,
            why,
        } => {
            let why = cause(catalog, group, done, of, shard, why);
            refused(dealt, commit.tx().number, Reply::refusal(why, false))
        }
    }
}
