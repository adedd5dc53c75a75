use crate::bytes::Bytes;
use crate::cause::Cause;
use crate::group::Group;
use crate::limit::Limit;
use crate::lost_why::LostWhy;
use crate::reply::Reply;
use crate::shard_name::ShardName;
use crate::unsupported::Unsupported;
use crate::warning::Warning;
use std::alloc::{AllocError, Global};
use std::process::Abort;
use std::test::Fail;

fn name(alloc: Global, text: &[u8]) -> Result<Bytes, AllocError> {
    Bytes::from_slice(alloc, text)
}

fn shard() -> ShardName {
    ShardName::new(b"commerce/-80")
}

fn assert_told(rt: &impl Abort, cause: Cause, code: u16, state: &[u8], text: &[u8]) {
    assert_eq!(rt; cause.code(), code);
    assert_eq!(rt; cause.state(), state);
    let told = cause.text();
    assert_eq!(rt; told.as_slice(), text);
}

#[test]
fn refusals_of_a_connection(rt: HostRuntime) -> Result<(), Fail> {
    let user = name(rt.alloc(), b"root")?;
    assert_told(
        &rt,
        Cause::AccessDenied { user },
        1045,
        b"28000",
        b"Access denied for user 'root'",
    );
    assert_told(&rt, Cause::OutOfMemory, 1037, b"HY001", b"Out of memory");
    assert_told(
        &rt,
        Cause::TooManySessions,
        1040,
        b"08004",
        b"Too many sessions: 1000",
    );
    assert_told(
        &rt,
        Cause::BadHandshake { at: 32 },
        1043,
        b"08S01",
        b"Bad handshake at byte 32",
    );
    assert_told(
        &rt,
        Cause::UnknownCommand,
        1047,
        b"08S01",
        b"Unknown command",
    );
    assert_told(
        &rt,
        Cause::PacketTooLarge { len: 16777215 },
        1153,
        b"08S01",
        b"Packet of 16777215 bytes is larger than 1048576",
    );
    assert_told(
        &rt,
        Cause::PacketOrder { got: 255, due: 0 },
        1156,
        b"08S01",
        b"Packet number 255 came where 0 was due",
    );
    Ok(())
}

#[test]
fn refusals_of_names_and_texts(rt: HostRuntime) -> Result<(), Fail> {
    let alloc = rt.alloc();
    let database = name(alloc, b"shop")?;
    assert_told(
        &rt,
        Cause::UnknownDatabase { name: database },
        1049,
        b"42000",
        b"Unknown database 'shop'",
    );
    let column = name(alloc, b"x")?;
    assert_told(
        &rt,
        Cause::UnknownColumn { name: column },
        1054,
        b"42S22",
        b"Unknown column 'x'",
    );
    let table = name(alloc, b"t9")?;
    assert_told(
        &rt,
        Cause::UnknownTable { name: table },
        1146,
        b"42S02",
        b"Unknown table 't9'",
    );
    assert_told(
        &rt,
        Cause::Syntax { at: 0 },
        1064,
        b"42000",
        b"Syntax error at byte 0",
    );
    assert_told(
        &rt,
        Cause::RowCount {
            row: 1,
            values: 1,
            columns: 2,
        },
        1136,
        b"21S01",
        b"Row 1 has 1 values for 2 columns",
    );
    Ok(())
}

#[test]
fn refusals_of_values(rt: HostRuntime) -> Result<(), Fail> {
    let alloc = rt.alloc();
    let column = name(alloc, b"a")?;
    assert_told(
        &rt,
        Cause::NotNull { column },
        1048,
        b"23000",
        b"Column 'a' cannot be null",
    );
    let column = name(alloc, b"id")?;
    assert_told(
        &rt,
        Cause::OutOfRange { column },
        1264,
        b"22003",
        b"Value of 'id' is out of range",
    );
    let column = name(alloc, b"id")?;
    assert_told(
        &rt,
        Cause::NotNumber { column },
        1366,
        b"HY000",
        b"Value of 'id' is not a number",
    );
    let column = name(alloc, b"b")?;
    assert_told(
        &rt,
        Cause::TooLong { column, most: 32 },
        1406,
        b"22001",
        b"Value of 'b' is longer than 32 bytes",
    );
    Ok(())
}

#[test]
fn a_duplicate_names_the_row_that_has_the_value(rt: HostRuntime) -> Result<(), Fail> {
    let alloc = rt.alloc();
    let value = name(alloc, b"7")?;
    let key = name(alloc, b"t1_u")?;
    let row = name(alloc, b"1")?;
    let cause = Cause::Duplicate {
        value,
        key,
        row,
        shard: shard(),
    };
    assert_told(
        &rt,
        cause,
        1062,
        b"23000",
        b"Duplicate entry '7' for key 't1_u': row (1) on commerce/-80",
    );
    Ok(())
}

#[test]
fn refusals_of_locks(rt: HostRuntime) -> Result<(), Fail> {
    let alloc = rt.alloc();
    let table = name(alloc, b"t1_u_idx")?;
    let key = name(alloc, b"7")?;
    assert_told(
        &rt,
        Cause::LockWait {
            limit: 3,
            table,
            key,
            holder: 2,
        },
        1205,
        b"HY000",
        b"Lock wait limit 3 reached on t1_u_idx (7), held by session 2",
    );
    let value = name(alloc, b"7")?;
    let lookup = name(alloc, b"t1_u")?;
    assert_told(
        &rt,
        Cause::RemovedAndClaimed { value, lookup },
        1205,
        b"HY000",
        b"Value '7' of t1_u is removed and claimed in one transaction",
    );
    let value = name(alloc, b"7")?;
    let lookup = name(alloc, b"t1_u")?;
    assert_told(
        &rt,
        Cause::ClaimedAndRemoved { value, lookup },
        1205,
        b"HY000",
        b"Value '7' of t1_u is claimed and removed in one transaction",
    );
    Ok(())
}

fn assert_lost(rt: &impl Abort, cause: Cause, text: &[u8]) {
    assert_told(rt, cause, 1105, b"HY000", text);
}

#[test]
fn losses_of_a_shard_session(rt: HostRuntime) {
    let had = 1;
    let current = 2;
    assert_lost(
        &rt,
        Cause::LostSession {
            shard: shard(),
            group: Group::Post,
            why: LostWhy::Restarted { had, current },
        },
        b"Lost commerce/-80 post session (restarted 1 2)",
    );
    assert_lost(
        &rt,
        Cause::LostRead { shard: shard() },
        b"Lost commerce/-80 read (link)",
    );
    assert_lost(
        &rt,
        Cause::DeviceFailed { shard: shard() },
        b"Device of commerce/-80 failed",
    );
}

#[test]
fn commits_that_failed(rt: HostRuntime) {
    assert_lost(
        &rt,
        Cause::CommitLost {
            group: Group::Main,
            done: 0,
            of: 1,
            shard: shard(),
            why: LostWhy::Link,
        },
        b"Commit failed in main after 0 of 1: lost commerce/-80 (link)",
    );
    assert_lost(
        &rt,
        Cause::CommitLost {
            group: Group::Main,
            done: 0,
            of: 1,
            shard: shard(),
            why: LostWhy::Dropped,
        },
        b"Commit failed in main after 0 of 1: lost commerce/-80 (dropped)",
    );
    assert_lost(
        &rt,
        Cause::CommitDevice {
            group: Group::Pre,
            done: 1,
            of: 3,
            shard: shard(),
        },
        b"Commit failed in pre after 1 of 3: device of commerce/-80",
    );
}

#[test]
fn post_commits_that_failed(rt: HostRuntime) {
    let warnings: [(Warning, &[u8]); 3] = [
        (
            Warning::PostLost {
                shard: shard(),
                why: LostWhy::Link,
            },
            b"Post commit failed: lost commerce/-80 (link)",
        ),
        (
            Warning::PostLost {
                shard: shard(),
                why: LostWhy::Restarted { had: 1, current: 2 },
            },
            b"Post commit failed: lost commerce/-80 (restarted 1 2)",
        ),
        (
            Warning::PostDevice { shard: shard() },
            b"Post commit failed: device of commerce/-80",
        ),
    ];
    for (warning, text) in warnings {
        assert_eq!(rt; warning.code(), 1105);
        assert_eq!(rt; warning.text().as_slice(), text);
    }
}

#[test]
fn limits_that_are_reached(rt: HostRuntime) {
    let limits: [(Limit, u64, &[u8]); 10] = [
        (Limit::Changes, 10000, b"Limit of changes reached: 10000"),
        (
            Limit::RecordBytes,
            16777216,
            b"Limit of record bytes reached: 16777216",
        ),
        (
            Limit::JournalBytes,
            1099511627776,
            b"Limit of journal bytes reached: 1099511627776",
        ),
        (
            Limit::ResultRows,
            100000,
            b"Limit of result rows reached: 100000",
        ),
        (
            Limit::ResultBytes,
            16777216,
            b"Limit of result bytes reached: 16777216",
        ),
        (
            Limit::Transactions,
            4611686018427387903,
            b"Limit of transactions reached: 4611686018427387903",
        ),
        (
            Limit::Events,
            4611686018427387903,
            b"Limit of events reached: 4611686018427387903",
        ),
        (
            Limit::Parameters,
            65535,
            b"Limit of parameters reached: 65535",
        ),
        (
            Limit::PreparedStatements,
            1000,
            b"Limit of prepared statements reached: 1000",
        ),
        (
            Limit::SequenceNumbers,
            9223372036854775807,
            b"Limit of sequence numbers reached: 9223372036854775807",
        ),
    ];
    for (what, count, text) in limits {
        assert_lost(&rt, Cause::Limit { what, count }, text);
    }
}

#[test]
fn statements_that_are_not_supported(rt: HostRuntime) {
    let statements: [(Unsupported, &[u8]); 8] = [
        (
            Unsupported::WriteToLookupTable,
            b"Not supported: write to a lookup table",
        ),
        (
            Unsupported::LockOnLookupTable,
            b"Not supported: lock on a lookup table",
        ),
        (
            Unsupported::ChangeOfKeyColumn,
            b"Not supported: change of a key column",
        ),
        (
            Unsupported::CountWithMore,
            b"Not supported: COUNT(*) with more",
        ),
        (Unsupported::Lookups, b"Not supported: lookups"),
        (Unsupported::Cursor, b"Not supported: cursor"),
        (
            Unsupported::WriteToSequenceTable,
            b"Not supported: write to a sequence table",
        ),
        (
            Unsupported::LockOnSequenceTable,
            b"Not supported: lock on a sequence table",
        ),
    ];
    for (what, text) in statements {
        assert_told(&rt, Cause::NotSupported { what }, 1235, b"42000", text);
    }
}

#[test]
fn refusals_of_prepared_statements(rt: HostRuntime) {
    let unknown = Cause::UnknownStatement { id: 9 };
    assert_told(
        &rt,
        unknown,
        1243,
        b"HY000",
        b"Unknown prepared statement 9",
    );
    let code = 16;
    assert_told(
        &rt,
        Cause::ParameterType { code },
        1235,
        b"42000",
        b"Not supported: parameter type 16",
    );
    let at = 10;
    assert_told(
        &rt,
        Cause::BrokenExecute { at },
        1105,
        b"HY000",
        b"Broken execute payload at byte 10",
    );
}

/// The text for a user whose name is this many times `u`.
fn denied(alloc: Global, len: usize) -> Result<Cause, AllocError> {
    let mut user = Vec::new(alloc);
    for _ in 0..len {
        user.push(b'u')?;
    }
    Ok(Cause::AccessDenied {
        user: Bytes::from_vec(user),
    })
}

#[test]
fn a_text_ends_after_512_bytes(rt: HostRuntime) -> Result<(), Fail> {
    for (name, len, last) in [
        (486, 511, b'\''),
        (487, 512, b'\''),
        (488, 512, b'u'),
        (600, 512, b'u'),
    ] {
        let told = denied(rt.alloc(), name)?.text();
        assert_eq!(rt; told.as_slice().len(), len);
        assert_eq!(rt; told.as_slice().last(), Some(&last));
    }
    Ok(())
}

#[test]
fn a_refusal_carries_the_code_of_its_cause(rt: HostRuntime) {
    for open in [false, true] {
        match Reply::refusal(Cause::Syntax { at: 3 }, open) {
            Reply::Ok { .. } | Reply::Rows { .. } => assert!(rt; false, "a refusal isn't done"),
            Reply::Err { code, why, tx } => {
                assert_eq!(rt; code, 1064);
                assert_eq!(rt; why.state(), b"42000".as_slice());
                assert_eq!(rt; tx, open);
            }
        }
    }
}
