use crate::cause::Cause;
use crate::items::Items;
use crate::reply_column::ReplyColumn;
use crate::row::Row;

/// The answer to a statement. `tx` is true while a transaction stays open, and `auto` while
/// autocommit is on.
#[derive(Drop)]
pub enum Reply {
    /// How many rows the statement changed and found, and how many warnings it left.
    Ok {
        affected: u64,
        found: u64,
        warnings: u16,
        tx: bool,
        auto: bool,
    },
    /// The result set of a SELECT: each row has a value for each column, in their order.
    Rows {
        columns: Items<ReplyColumn>,
        rows: Items<Row>,
        tx: bool,
        auto: bool,
    },
    /// The error code, what it tells, and whether a transaction stays open.
    Err {
        code: u16,
        why: Cause,
        tx: bool,
    },
}

impl Reply {
    ghost use Rattle.std.specs.Prelude.{◌≡◌};
    ghost use Rattle.vl_values.specs.Reply.{refusal, done};

    /// The reply of a statement that is refused.
    pub fn refusal(why: Cause, tx: bool) -> Reply
        ensures { result ≡ refusal why tx }
    {
        Reply::Err {
            code: why.code(),
            why,
            tx,
        }
    }

    /// The reply of a statement that changed this many rows and left no warning.
    pub fn done(affected: u64, tx: bool, auto: bool) -> Reply
        ensures { result ≡ done affected tx auto }
    {
        Reply::Ok {
            affected,
            found: affected,
            warnings: 0,
            tx,
            auto,
        }
    }
}
