use crate::pick::Pick;
use crate::side::Side;
use vl_values::group::Group;

/// A line of a script, one variant a form. It borrows its shard and its SQL from the text.
///
/// A session is the number in its name, from 1 to 9,999. A count is from 1 to 1,000,000. A shard is a
/// word that only a catalog can judge: at least one byte, none of them a space.
#[derive(Clone, Copy, Debug, PartialEq, Eq)]
pub enum Line<'a> {
    /// An empty line, or one that begins with `#`.
    Skipped,
    /// `run SESSION SQL`: the statement, up to its reply.
    Run {
        session: u16,
        sql: &'a [u8],
    },
    /// `ask SESSION SQL`: the statement's first event.
    Ask {
        session: u16,
        sql: &'a [u8],
    },
    /// `step SESSION`: one event more.
    Step {
        session: u16,
    },
    /// `go SESSION`: events up to the reply.
    Go {
        session: u16,
    },
    /// `close SESSION`: the session leaves.
    Close {
        session: u16,
    },
    /// `lose SHARD before N` or `lose SHARD after N`: the N-th carry to the shard from now is lost.
    Lose {
        shard: &'a [u8],
        side: Side,
        carry: u32,
    },
    /// `drop SESSION GROUP SHARD`: the session's shard session of that group dies silently.
    DropSession {
        session: u16,
        group: Group,
        shard: &'a [u8],
    },
    /// `restart SHARD`: the shard is opened again from its disk.
    Restart {
        shard: &'a [u8],
    },
    /// `fail SHARD N`: the N-th device call of the shard from now fails.
    Fail {
        shard: &'a [u8],
        call: u32,
    },
    /// `crash SHARD N PICK`: the N-th device call of the shard from now stops all.
    CrashAt {
        shard: &'a [u8],
        call: u32,
        pick: Pick,
    },
    /// `crash PICK`: all stops now.
    CrashNow {
        pick: Pick,
    },
    /// `checkpoint SHARD`: the other side of the shard is written.
    Checkpoint {
        shard: &'a [u8],
    },
    /// `dump`: the committed rows.
    Dump,
    /// `audit`: entries that are missing, doubled or orphans.
    Audit,
    /// `visited SESSION`: the shards of the session's last statement.
    Visited {
        session: u16,
    },
}
