ghost use Rattle.std.specs.Prelude.{◌≡◌, ◌<◌, ◌+◌, ◌^◌, IfOk, OnErr};
ghost use Rattle.vl_values.specs.declared.cause.Cause.TheVariants as causes;
ghost use Rattle.vl_statement.specs.Refusing.{done, refused, refused_whole};
ghost use Rattle.vl_statement.specs.Waiting.{Waits};

use crate::program_told::ProgramTold;
use crate::refusing::lock_wait;
use std::alloc::{AllocError, Global};
use vl_catalog::Catalog;
use vl_port::tx_state::TxState;
use vl_values::SessionNo;
use vl_values::cause::Cause;
use vl_values::key::Key;
use vl_values::reply::Reply;

/// The reply of a statement that wrote and found so many rows.
pub fn done(tx: &TxState, affected: u64, found: u64) -> ProgramTold
    ensures { result ≡ done tx.now affected found }
{
    ProgramTold::Reply(Reply::Ok {
        affected,
        found,
        warnings: 0,
        tx: !tx.single,
        auto: tx.auto,
    })
}

/// The reply of a statement that is refused, and has written or not.
pub fn refused(tx: &TxState, wrote: bool, why: Cause) -> ProgramTold
    ensures { result ≡ refused tx.now wrote why }
{
    let kept = !tx.single && !wrote;
    ProgramTold::Reply(Reply::refusal(why, kept))
}

/// The same, where the text may be refused for memory: then that is the cause.
pub fn refused_for(tx: &TxState, wrote: bool, why: Result<Cause, AllocError>) -> ProgramTold
    ensures ok { IfOk why (λ cause. result ≡ refused tx.now wrote cause) }
    ensures err { OnErr why (result ≡ refused tx.now wrote causes.OutOfMemory) }
{
    match why {
        Ok(cause) => refused(tx, wrote, cause),
        Err(_) => refused(tx, wrote, Cause::OutOfMemory),
    }
}

/// The reply of a statement after which the whole transaction is to be rolled back.
pub fn refused_whole(why: Cause) -> ProgramTold
    ensures { result ≡ refused_whole why }
{
    ProgramTold::Reply(Reply::refusal(why, false))
}

/// What is told of an action that was answered `Held` and that was tried so often before: it is tried again,
/// or the statement is refused, which has written or not. The program counts the try.
pub fn wait(
    alloc: Global,
    catalog: &Catalog,
    tx: &TxState,
    wrote: bool,
    tries: u32,
    by: SessionNo,
    key: Key,
) -> ProgramTold
    requires { tries < tx.now.limits.tries }
    ensures waits { Waits {P = Unit {0}} catalog.now tx.now wrote tries by key result tt tt }
    // The program can count the try.
    ensures fits { tries + 1 < 2 ^ 32 }
{
    let limit = tx.limits.tries;
    let tries = tries + 1;
    if tries < limit {
        return ProgramTold::Held { by, key, tries };
    }
    let why = lock_wait(alloc, catalog, limit, by, &key);
    refused_for(tx, wrote, why)
}
