ghost use Rattle.vl_rules.specs.Order.{Checked};

use crate::test_stage::Stage;
use std::alloc::{AllocError, Global};
use std::process::Abort;
use std::test::Fail;
use vl_catalog::Catalog;
use vl_port::committed::Committed;
use vl_port::limits::Limits;
use vl_port::loss::Loss;
use vl_statement::program_told::ProgramTold;
use vl_text::joined_text;
use vl_values::bytes::Bytes;
use vl_values::cause::Cause;
use vl_values::group::Group;
use vl_values::key::Key;
use vl_values::reply::Reply;
use vl_values::reply_column::ReplyColumn;
use vl_values::row::Row;
use vl_values::value::Value;
use vl_values::{SessionNo, ShardNo, TableNo};

// The table of the rows that are met, and that of the entries of t1's lookup. Numbers below 9223372036854775808
// stand on shard 0, the others on shard 1.
const TABLE: TableNo = 0;

const ENTRIES: TableNo = 1;

// What is done next on the stage, and what has to be seen. Clients are counted as they join.
#[derive(Clone, Copy)]
pub(crate) enum Call {
    /// A transaction of this session, with this limit of tries: whether autocommit is on, and whether it is
    /// of a single statement.
    Join(SessionNo, u32, bool, bool),
    /// A transaction of this session that may make this many changes.
    JoinFew(SessionNo, u32),
    /// A transaction of this session whose statements may read this many rows, and bytes of them.
    JoinShort(SessionNo, u32, u64),
    /// A statement that is refused before it has a program, with this error.
    Refused(&'static str, &'static str),
    /// The client's session for entries writes one of this number to t1's lookup, without a keyspace id.
    Entry(usize, u64),
    /// The client's next statement.
    Say(usize, &'static str),
    /// A step after which another action is due.
    More(usize),
    /// A step that meets the row of this key, which this session holds, for the first time.
    Held(usize, SessionNo, u64),
    /// A step that meets the entry of this number in t1's lookup, which this session holds, for the first time.
    HeldEntry(usize, SessionNo, u64),
    /// A step that gives this reply.
    Reply(usize, &'static str),
    /// The client's main session that was listed last, on this shard, is committed.
    Commit(usize, ShardNo),
    /// So is that of the entries.
    CommitEntries(usize, ShardNo),
    /// The main session is ended without a commit.
    Close(usize, ShardNo),
    /// The session that this client session has open on a shard is killed.
    Drop(SessionNo, ShardNo),
    /// The shards of the client's main sessions, in the order of first use.
    Listed(usize, &'static [ShardNo]),
    /// Those of its sessions for entries.
    ListedEntries(usize, &'static [ShardNo]),
    /// How many acts and commits were carried to a shard.
    Carried(ShardNo, u64),
    /// How many messages the link has lost.
    Lost(u64),
}

fn limits(tries: u32) -> Limits {
    Limits {
        tries,
        changes: 10_000,
        result_rows: 100_000,
        result_bytes: 16_777_216,
        tail: 16_777_216,
        trace: false,
    }
}

fn one_number(alloc: Global, number: u64) -> Result<Row, AllocError> {
    Ok(Row::from_vec(vec![in alloc; Value::Uint(number)]?))
}

fn key(alloc: Global, table: TableNo, id: u64) -> Result<Key, AllocError> {
    let pk = one_number(alloc, id)?;
    Ok(Key { table, pk })
}

fn utf8(bytes: &Bytes) -> Result<&str, Fail> {
    let text = str::from_utf8(bytes.as_slice()).ok().ok_or("a text")?;
    Ok(text)
}

// The names of the columns, and the values of each row in brackets.
fn set_text(alloc: Global, columns: &[ReplyColumn], rows: &[Row]) -> Result<String, Fail> {
    let mut text = String::new(alloc);
    for column in columns {
        text.push_str(utf8(&column.name)?)?;
        text.push_str(" ")?;
    }
    for row in rows {
        text.push_str("(")?;
        text.push_str(utf8(&joined_text(alloc, row.as_slice())?)?)?;
        text.push_str(")")?;
    }
    Ok(text)
}

// What an error says, with its number.
fn error_text(alloc: Global, code: u16, why: &Cause) -> Result<String, Fail> {
    let text = why.text();
    let text = str::from_utf8(text.as_slice()).ok().ok_or("a text")?;
    Ok(format!(in alloc; "ERR {code} {text}")?)
}

// What a reply says: how many rows were changed and found, or the error; and what is open then.
fn reply_text(alloc: Global, told: &ProgramTold) -> Result<String, Fail> {
    match told {
        ProgramTold::Reply(
            Reply::Ok {
                affected,
                found,
                warnings,
                tx,
                auto,
            },
        ) => {
            let counts = format!(in alloc; "OK {affected} of {found}, warnings {warnings}")?;
            Ok(format!(in alloc; "{counts}, open {tx}, autocommit {auto}")?)
        }
        ProgramTold::Reply(
            Reply::Rows {
                columns,
                rows,
                tx,
                auto,
            },
        ) => {
            let set = set_text(alloc, columns.as_slice(), rows.as_slice())?;
            Ok(format!(in alloc; "{set}, open {tx}, autocommit {auto}")?)
        }
        ProgramTold::Reply(Reply::Err { code, why, tx }) => {
            let error = error_text(alloc, *code, why)?;
            Ok(format!(in alloc; "{error}, open {tx}")?)
        }
        _ => Err("a statement that is answered".into()),
    }
}

fn refuses(
    rt: &impl Abort,
    alloc: Global,
    stage: &Stage,
    text: &str,
    want: &str,
) -> Result<(), Fail> {
    let why = stage.refusal(alloc, text)?;
    let got = error_text(alloc, why.code(), &why)?;
    assert_eq!(rt; got.as_str(), want);
    Ok(())
}

fn replies(
    rt: &impl Abort,
    alloc: Global,
    stage: &mut Stage,
    client: usize,
    want: &str,
) -> Result<(), Fail> {
    let told = stage.step(alloc, client).ok_or("a statement")?;
    let got = reply_text(alloc, &told)?;
    assert_eq!(rt; got.as_str(), want);
    Ok(())
}

fn waits(
    rt: &impl Abort,
    alloc: Global,
    stage: &mut Stage,
    client: usize,
    session: SessionNo,
    key: &Key,
) -> Result<(), Fail> {
    let Some(
        ProgramTold::Held {
            by,
            key: held,
            tries,
        },
    ) = stage.step(alloc, client)
    else {
        return Err("a row that another holds".into());
    };
    assert_eq!(rt; (by, tries), (session, 1));
    assert_eq!(rt; &held, key);
    Ok(())
}

fn done(rt: &impl Abort, alloc: Global, stage: &mut Stage, call: Call) -> Result<(), Fail> {
    match call {
        Call::Join(session, tries, auto, single) => {
            stage.join(alloc, session, limits(tries), auto, single)?;
        }
        Call::Say(client, text) => stage.start(alloc, client, text)?,
        Call::More(client) => {
            let more = matches!(stage.step(alloc, client), Some(ProgramTold::More));
            assert!(rt; more, "another action is due");
        }
        Call::Held(client, session, id) => {
            waits(rt, alloc, stage, client, session, &key(alloc, TABLE, id)?)?;
        }
        Call::HeldEntry(client, session, id) => {
            waits(rt, alloc, stage, client, session, &key(alloc, ENTRIES, id)?)?;
        }
        Call::Reply(client, want) => replies(rt, alloc, stage, client, want)?,
        Call::Commit(client, shard) => {
            assert_eq!(rt;
                stage.commit_last(client, Group::Main),
                Some((shard, Committed::Done))
            );
        }
        Call::CommitEntries(client, shard) => {
            assert_eq!(rt;
                stage.commit_last(client, Group::Pre),
                Some((shard, Committed::Done))
            );
        }
        Call::JoinFew(session, changes) => {
            let few = Limits {
                changes,
                ..limits(100)
            };
            stage.join(alloc, session, few, true, false)?;
        }
        Call::JoinShort(session, result_rows, result_bytes) => {
            let short = Limits {
                result_rows,
                result_bytes,
                ..limits(100)
            };
            stage.join(alloc, session, short, true, false)?;
        }
        Call::Refused(text, want) => refuses(rt, alloc, stage, text, want)?,
        Call::Entry(client, number) => stage.leave_entry(alloc, client, number)?,
        Call::Close(client, shard) => {
            assert_eq!(rt; stage.close_last(client, Group::Main), Some(shard));
        }
        Call::Drop(session, shard) => {
            assert!(rt; stage.drop_session(session, shard), "a live session");
        }
        Call::Listed(client, shards) => {
            assert_eq!(rt; stage.listed(client, Group::Main), shards);
        }
        Call::ListedEntries(client, shards) => {
            assert_eq!(rt; stage.listed(client, Group::Pre), shards);
        }
        Call::Carried(shard, count) => assert_eq!(rt; stage.carried(shard), count),
        Call::Lost(count) => assert_eq!(rt; stage.lost(), count),
    }
    Ok(())
}

/// Plays the calls on two empty shards of a catalog. The losses are those that the link plays on the first and
/// on the second shard.
pub(crate) fn play_over(
    rt: &impl Abort,
    alloc: Global,
    catalog: Catalog,
    first: Option<Loss>,
    second: Option<Loss>,
    calls: &[Call],
) -> Result<(), Fail>
    requires { Checked catalog }
{
    let mut stage = Stage::new(alloc, catalog, first, second)?;
    for call in calls {
        done(rt, alloc, &mut stage, *call)?;
    }
    Ok(())
}
