use crate::SessionNo;
use crate::bytes::Bytes;
use crate::error_text::ErrorText;
use crate::group::Group;
use crate::limit::Limit;
use crate::lost_why::LostWhy;
use crate::piece::{Piece, joined};
use crate::shard_name::ShardName;
use crate::unsupported::Unsupported;

/// Why a statement, a login or a packet is refused: one variant for each error text. Names and
/// printed keys stand as text; a shard is named as `keyspace/range`.
#[derive(Drop)]
pub enum Cause {
    OutOfMemory,
    TooManySessions,
    /// The place is counted in bytes of the payload.
    BadHandshake {
        at: u64,
    },
    AccessDenied {
        user: Bytes,
    },
    UnknownCommand,
    NotNull {
        column: Bytes,
    },
    UnknownDatabase {
        name: Bytes,
    },
    UnknownColumn {
        name: Bytes,
    },
    /// The values that clash, the key's name, the printed key of the row that has them, and its shard.
    Duplicate {
        value: Bytes,
        key: Bytes,
        row: Bytes,
        shard: ShardName,
    },
    /// The place is counted in bytes of the text.
    Syntax {
        at: u64,
    },
    LostSession {
        shard: ShardName,
        group: Group,
        why: LostWhy,
    },
    LostRead {
        shard: ShardName,
    },
    DeviceFailed {
        shard: ShardName,
    },
    /// How many of the group's commits were done, of how many, and the shard whose session was lost.
    CommitLost {
        group: Group,
        done: u32,
        of: u32,
        shard: ShardName,
        why: LostWhy,
    },
    CommitDevice {
        group: Group,
        done: u32,
        of: u32,
        shard: ShardName,
    },
    Limit {
        what: Limit,
        count: u64,
    },
    /// A row of INSERT, counted from 1, whose values aren't as many as the columns.
    RowCount {
        row: u64,
        values: u64,
        columns: u64,
    },
    UnknownTable {
        name: Bytes,
    },
    PacketTooLarge {
        len: u64,
    },
    PacketOrder {
        got: u8,
        due: u8,
    },
    LockWait {
        limit: u32,
        table: Bytes,
        key: Bytes,
        holder: SessionNo,
    },
    RemovedAndClaimed {
        value: Bytes,
        lookup: Bytes,
    },
    ClaimedAndRemoved {
        value: Bytes,
        lookup: Bytes,
    },
    NotSupported {
        what: Unsupported,
    },
    /// A parameter of a prepared statement has a type of this code.
    ParameterType {
        code: u8,
    },
    UnknownStatement {
        id: u32,
    },
    /// The place is counted in bytes of the payload.
    BrokenExecute {
        at: u64,
    },
    OutOfRange {
        column: Bytes,
    },
    NotNumber {
        column: Bytes,
    },
    TooLong {
        column: Bytes,
        most: u16,
    },
}

impl Cause {
    ghost use Rattle.std.specs.Prelude.{◌≡◌};
    ghost use Rattle.vl_values.specs.Cause.{error_code, sql_state, cause_text};

    /// The error code, as MySQL numbers it.
    pub fn code(&self) -> u16
        ensures { result ≡ error_code self.now }
    {
        match self {
            Cause::OutOfMemory => 1037,
            Cause::TooManySessions => 1040,
            Cause::BadHandshake { .. } => 1043,
            Cause::AccessDenied { .. } => 1045,
            Cause::UnknownCommand => 1047,
            Cause::NotNull { .. } => 1048,
            Cause::UnknownDatabase { .. } => 1049,
            Cause::UnknownColumn { .. } => 1054,
            Cause::Duplicate { .. } => 1062,
            Cause::Syntax { .. } => 1064,
            Cause::LostSession { .. } => 1105,
            Cause::LostRead { .. } => 1105,
            Cause::DeviceFailed { .. } => 1105,
            Cause::CommitLost { .. } => 1105,
            Cause::CommitDevice { .. } => 1105,
            Cause::Limit { .. } => 1105,
            Cause::RowCount { .. } => 1136,
            Cause::UnknownTable { .. } => 1146,
            Cause::PacketTooLarge { .. } => 1153,
            Cause::PacketOrder { .. } => 1156,
            Cause::LockWait { .. } => 1205,
            Cause::RemovedAndClaimed { .. } => 1205,
            Cause::ClaimedAndRemoved { .. } => 1205,
            Cause::NotSupported { .. } => 1235,
            Cause::ParameterType { .. } => 1235,
            Cause::UnknownStatement { .. } => 1243,
            Cause::BrokenExecute { .. } => 1105,
            Cause::OutOfRange { .. } => 1264,
            Cause::NotNumber { .. } => 1366,
            Cause::TooLong { .. } => 1406,
        }
    }

    /// The SQLSTATE, five bytes.
    pub fn state(&self) -> &'static [u8]
        ensures { result.now ≡ sql_state self.now }
    {
        match self {
            Cause::OutOfMemory => b"HY001",
            Cause::TooManySessions => b"08004",
            Cause::BadHandshake { .. } => b"08S01",
            Cause::AccessDenied { .. } => b"28000",
            Cause::UnknownCommand => b"08S01",
            Cause::NotNull { .. } => b"23000",
            Cause::UnknownDatabase { .. } => b"42000",
            Cause::UnknownColumn { .. } => b"42S22",
            Cause::Duplicate { .. } => b"23000",
            Cause::Syntax { .. } => b"42000",
            Cause::LostSession { .. } => b"HY000",
            Cause::LostRead { .. } => b"HY000",
            Cause::DeviceFailed { .. } => b"HY000",
            Cause::CommitLost { .. } => b"HY000",
            Cause::CommitDevice { .. } => b"HY000",
            Cause::Limit { .. } => b"HY000",
            Cause::RowCount { .. } => b"21S01",
            Cause::UnknownTable { .. } => b"42S02",
            Cause::PacketTooLarge { .. } => b"08S01",
            Cause::PacketOrder { .. } => b"08S01",
            Cause::LockWait { .. } => b"HY000",
            Cause::RemovedAndClaimed { .. } => b"HY000",
            Cause::ClaimedAndRemoved { .. } => b"HY000",
            Cause::NotSupported { .. } => b"42000",
            Cause::ParameterType { .. } => b"42000",
            Cause::UnknownStatement { .. } => b"HY000",
            Cause::BrokenExecute { .. } => b"HY000",
            Cause::OutOfRange { .. } => b"22003",
            Cause::NotNumber { .. } => b"HY000",
            Cause::TooLong { .. } => b"22001",
        }
    }

    /// The error text, cut after 512 bytes. It takes no memory.
    pub fn text(&self) -> ErrorText
        ensures { result ≡ cause_text self.now }
    {
        match self {
            Cause::OutOfMemory => joined(&[Piece::Text(b"Out of memory")]),
            Cause::TooManySessions => joined(&[Piece::Text(b"Too many sessions: 1000")]),
            Cause::BadHandshake { at } => joined(&[
                Piece::Text(b"Bad handshake at byte "),
                Piece::Number(*at),
            ]),
            Cause::AccessDenied { user } => joined(&[
                Piece::Text(b"Access denied for user '"),
                Piece::Text(user.as_slice()),
                Piece::Text(b"'"),
            ]),
            Cause::UnknownCommand => joined(&[Piece::Text(b"Unknown command")]),
            Cause::NotNull { column } => joined(&[
                Piece::Text(b"Column '"),
                Piece::Text(column.as_slice()),
                Piece::Text(b"' cannot be null"),
            ]),
            Cause::UnknownDatabase { name } => joined(&[
                Piece::Text(b"Unknown database '"),
                Piece::Text(name.as_slice()),
                Piece::Text(b"'"),
            ]),
            Cause::UnknownColumn { name } => joined(&[
                Piece::Text(b"Unknown column '"),
                Piece::Text(name.as_slice()),
                Piece::Text(b"'"),
            ]),
            Cause::Duplicate {
                value,
                key,
                row,
                shard,
            } => joined(&[
                Piece::Text(b"Duplicate entry '"),
                Piece::Text(value.as_slice()),
                Piece::Text(b"' for key '"),
                Piece::Text(key.as_slice()),
                Piece::Text(b"': row ("),
                Piece::Text(row.as_slice()),
                Piece::Text(b") on "),
                Piece::Text(shard.as_slice()),
            ]),
            Cause::Syntax { at } => joined(&[
                Piece::Text(b"Syntax error at byte "),
                Piece::Number(*at),
            ]),
            Cause::LostSession { shard, group, why } => joined(&[
                Piece::Text(b"Lost "),
                Piece::Text(shard.as_slice()),
                Piece::Text(b" "),
                Piece::Text(group.name()),
                Piece::Text(b" session ("),
                Piece::Why(*why),
                Piece::Text(b")"),
            ]),
            Cause::LostRead { shard } => joined(&[
                Piece::Text(b"Lost "),
                Piece::Text(shard.as_slice()),
                Piece::Text(b" read (link)"),
            ]),
            Cause::DeviceFailed { shard } => joined(&[
                Piece::Text(b"Device of "),
                Piece::Text(shard.as_slice()),
                Piece::Text(b" failed"),
            ]),
            Cause::CommitLost {
                group,
                done,
                of,
                shard,
                why,
            } => joined(&[
                Piece::Text(b"Commit failed in "),
                Piece::Text(group.name()),
                Piece::Text(b" after "),
                Piece::Number(u64::from(*done)),
                Piece::Text(b" of "),
                Piece::Number(u64::from(*of)),
                Piece::Text(b": lost "),
                Piece::Text(shard.as_slice()),
                Piece::Text(b" ("),
                Piece::Why(*why),
                Piece::Text(b")"),
            ]),
            Cause::CommitDevice {
                group,
                done,
                of,
                shard,
            } => joined(&[
                Piece::Text(b"Commit failed in "),
                Piece::Text(group.name()),
                Piece::Text(b" after "),
                Piece::Number(u64::from(*done)),
                Piece::Text(b" of "),
                Piece::Number(u64::from(*of)),
                Piece::Text(b": device of "),
                Piece::Text(shard.as_slice()),
            ]),
            Cause::Limit { what, count } => joined(&[
                Piece::Text(b"Limit of "),
                Piece::Text(what.name()),
                Piece::Text(b" reached: "),
                Piece::Number(*count),
            ]),
            Cause::RowCount {
                row,
                values,
                columns,
            } => joined(&[
                Piece::Text(b"Row "),
                Piece::Number(*row),
                Piece::Text(b" has "),
                Piece::Number(*values),
                Piece::Text(b" values for "),
                Piece::Number(*columns),
                Piece::Text(b" columns"),
            ]),
            Cause::UnknownTable { name } => joined(&[
                Piece::Text(b"Unknown table '"),
                Piece::Text(name.as_slice()),
                Piece::Text(b"'"),
            ]),
            Cause::PacketTooLarge { len } => joined(&[
                Piece::Text(b"Packet of "),
                Piece::Number(*len),
                Piece::Text(b" bytes is larger than 1048576"),
            ]),
            Cause::PacketOrder { got, due } => joined(&[
                Piece::Text(b"Packet number "),
                Piece::Number(u64::from(*got)),
                Piece::Text(b" came where "),
                Piece::Number(u64::from(*due)),
                Piece::Text(b" was due"),
            ]),
            Cause::LockWait {
                limit,
                table,
                key,
                holder,
            } => joined(&[
                Piece::Text(b"Lock wait limit "),
                Piece::Number(u64::from(*limit)),
                Piece::Text(b" reached on "),
                Piece::Text(table.as_slice()),
                Piece::Text(b" ("),
                Piece::Text(key.as_slice()),
                Piece::Text(b"), held by session "),
                Piece::Number(u64::from(*holder)),
            ]),
            Cause::RemovedAndClaimed { value, lookup } => joined(&[
                Piece::Text(b"Value '"),
                Piece::Text(value.as_slice()),
                Piece::Text(b"' of "),
                Piece::Text(lookup.as_slice()),
                Piece::Text(b" is removed and claimed in one transaction"),
            ]),
            Cause::ClaimedAndRemoved { value, lookup } => joined(&[
                Piece::Text(b"Value '"),
                Piece::Text(value.as_slice()),
                Piece::Text(b"' of "),
                Piece::Text(lookup.as_slice()),
                Piece::Text(b" is claimed and removed in one transaction"),
            ]),
            Cause::NotSupported { what } => joined(&[
                Piece::Text(b"Not supported: "),
                Piece::Text(what.name()),
            ]),
            Cause::ParameterType { code } => joined(&[
                Piece::Text(b"Not supported: parameter type "),
                Piece::Number(u64::from(*code)),
            ]),
            Cause::UnknownStatement { id } => joined(&[
                Piece::Text(b"Unknown prepared statement "),
                Piece::Number(u64::from(*id)),
            ]),
            Cause::BrokenExecute { at } => joined(&[
                Piece::Text(b"Broken execute payload at byte "),
                Piece::Number(*at),
            ]),
            Cause::OutOfRange { column } => joined(&[
                Piece::Text(b"Value of '"),
                Piece::Text(column.as_slice()),
                Piece::Text(b"' is out of range"),
            ]),
            Cause::NotNumber { column } => joined(&[
                Piece::Text(b"Value of '"),
                Piece::Text(column.as_slice()),
                Piece::Text(b"' is not a number"),
            ]),
            Cause::TooLong { column, most } => joined(&[
                Piece::Text(b"Value of '"),
                Piece::Text(column.as_slice()),
                Piece::Text(b"' is longer than "),
                Piece::Number(u64::from(*most)),
                Piece::Text(b" bytes"),
            ]),
        }
    }
}
