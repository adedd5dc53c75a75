use super::*;
use std::alloc::{AllocError, Global};
use std::process::Abort;
use std::test::Fail;
use vl_values::bytes::Bytes;
use vl_values::cause::Cause;
use vl_values::col_type::ColType;
use vl_values::items::Items;
use vl_values::reply::Reply;
use vl_values::reply_column::ReplyColumn;
use vl_values::row::Row;
use vl_values::value::Value;

/// A column as the tables below have it: schema, table, name, type and flags.
type ColumnRow = (&'static [u8], &'static [u8], &'static [u8], ColType, u16);

fn column_of(
    alloc: Global,
    (schema, table, name, ty, flags): ColumnRow,
) -> Result<ReplyColumn, AllocError> {
    Ok(ReplyColumn {
        schema: Bytes::from_slice(alloc, schema)?,
        table: Bytes::from_slice(alloc, table)?,
        name: Bytes::from_slice(alloc, name)?,
        ty,
        flags,
    })
}

/// A result set of these columns and rows.
fn rows_of(
    alloc: Global,
    columns: &[ColumnRow],
    rows: Vec<Row>,
    tx: bool,
    auto: bool,
) -> Result<Reply, AllocError> {
    let mut list = Vec::new(alloc);
    for column in columns {
        list.push(column_of(alloc, *column)?)?;
    }
    Ok(Reply::Rows {
        columns: Items::from_vec(list),
        rows: Items::from_vec(rows),
        tx,
        auto,
    })
}

static U: [ColumnRow; 1] = [(b"commerce", b"t1", b"u", ColType::BigUint, 32)];

/// `SELECT u FROM t1 WHERE id=1` over one row, as the first reply of a connection.
static SELECTED: &[u8] = b"\x01\x00\x00\x01\x01\
    \x24\x00\x00\x02\x03def\x08commerce\x02t1\x02t1\x01u\x01u\x0c\x3f\x00\x14\x00\x00\x00\x08\x20\x00\x00\x00\x00\
    \x05\x00\x00\x03\xfe\x00\x00\x02\x00\
    \x02\x00\x00\x04\x017\
    \x05\x00\x00\x05\xfe\x00\x00\x02\x00";

static WARNED: [ColumnRow; 2] = [
    (b"", b"", b"Code", ColType::BigUint, 33),
    (b"", b"", b"Message", ColType::VarChar(255), 0),
];

/// Two columns of no table and two rows, in a transaction, from number 254 on.
static SHOWN: &[u8] = b"\x01\x00\x00\xfe\x02\
    \x1a\x00\x00\xff\x03def\x00\x00\x00\x04Code\x00\x0c\x3f\x00\x14\x00\x00\x00\x08\x21\x00\x00\x00\x00\
    \x1d\x00\x00\x00\x03def\x00\x00\x00\x07Message\x00\x0c\x2d\x00\xff\x00\x00\x00\xfd\x00\x00\x00\x00\x00\
    \x05\x00\x00\x01\xfe\x00\x00\x01\x00\
    \x08\x00\x00\x02\x041105\x02ab\
    \x04\x00\x00\x03\x02-1\xfb\
    \x05\x00\x00\x04\xfe\x00\x00\x01\x00";

static NAMES: [ColumnRow; 1] = [(b"k", b"t", b"name", ColType::VarBinary(300), 3)];

/// A column of bytes that is the primary key, and no row.
static NONE: &[u8] = b"\x01\x00\x00\x01\x01\
    \x21\x00\x00\x02\x03def\x01k\x01t\x01t\x04name\x04name\x0c\x3f\x00\x2c\x01\x00\x00\xfd\x03\x00\x00\x00\x00\
    \x05\x00\x00\x03\xfe\x00\x00\x02\x00\
    \x05\x00\x00\x04\xfe\x00\x00\x02\x00";

/// The bytes of a reply are these.
fn assert_encoded(
    rt: &(impl Abort + AllocGlobal),
    reply: &Reply,
    caps: u32,
    seq: u8,
    bytes: &[u8],
) -> Result<(), Fail> {
    assert!(rt; is_encodable(reply));
    let encoded = encode(rt.alloc(), reply, caps, seq)?;
    assert_eq!(rt; encoded.as_slice(), bytes);
    Ok(())
}

#[test]
fn a_row_of_a_table_has_the_bytes_of_the_protocol(rt: HostRuntime) -> Result<(), Fail> {
    let alloc = rt.alloc();
    let row = Row::from_vec(vec![in alloc; Value::Uint(7)]?);
    let reply = rows_of(alloc, &U, vec![in alloc; row]?, false, true)?;
    assert_encoded(&rt, &reply, PROTOCOL_41, 1, SELECTED)
}

/// The rows of `SHOWN`.
fn shown_rows(alloc: Global) -> Result<Vec<Row>, AllocError> {
    let ab = Value::Bytes(Bytes::from_slice(alloc, b"ab")?);
    let first = Row::from_vec(vec![in alloc; Value::Uint(1105), ab]?);
    let second = Row::from_vec(vec![in alloc; Value::Int(-1), Value::Null]?);
    Ok(vec![in alloc; first, second]?)
}

#[test]
fn packets_past_255_are_numbered_from_0(rt: HostRuntime) -> Result<(), Fail> {
    let rows = shown_rows(rt.alloc())?;
    let reply = rows_of(rt.alloc(), &WARNED, rows, true, false)?;
    assert_encoded(&rt, &reply, PROTOCOL_41, 254, SHOWN)
}

#[test]
fn a_result_set_may_have_no_row(rt: HostRuntime) -> Result<(), Fail> {
    let alloc = rt.alloc();
    let reply = rows_of(alloc, &NAMES, Vec::new(alloc), false, true)?;
    assert_encoded(&rt, &reply, PROTOCOL_41, 1, NONE)
}

/// How many columns and rows are read of a result set, and its status.
fn counts_of(alloc: Global, bytes: &[u8]) -> Result<[usize; 3], BadReply> {
    match decode(alloc, bytes)? {
        Wire::Rows {
            columns,
            rows,
            status,
            warnings: _,
        } => Ok([columns.len(), rows.len(), usize::from(status)]),
        _ => Ok([0, 0, 0]),
    }
}

#[test]
fn result_sets_are_read(rt: HostRuntime) {
    assert_eq!(rt; counts_of(rt.alloc(), SELECTED), Ok([1, 1, 2]));
    assert_eq!(rt; counts_of(rt.alloc(), SHOWN), Ok([2, 2, 1]));
    assert_eq!(rt; counts_of(rt.alloc(), NONE), Ok([1, 0, 2]));
}

#[test]
fn a_front_of_a_result_set_ends_too_early(rt: HostRuntime) {
    for at in 0..SELECTED.len() {
        let read = counts_of(rt.alloc(), &SELECTED[..at]);
        assert_eq!(rt; read, Err(BadReply::Wrong { at }));
    }
}

/// Places of `SELECTED` where any other byte is a fault: numbers of packets, the length of the fixed
/// fields, and the bytes behind the decimals.
static FIXED: [usize; 6] = [8, 32, 43, 44, 48, 57];

#[test]
fn a_changed_byte_of_a_result_set_is_named(rt: HostRuntime) -> Result<(), Fail> {
    for at in &FIXED {
        let mut bytes = Vec::from_slice(rt.alloc(), SELECTED)?;
        if let Some(byte) = bytes.get_mut(*at) {
            *byte = 0x77;
        }
        let read = counts_of(rt.alloc(), bytes.as_slice());
        assert_eq!(rt; read, Err(BadReply::Wrong { at: *at }));
    }
    Ok(())
}

/// The bytes of an ERR and of an OK, by the capabilities.
static REFUSED: [(u32, &[u8]); 2] = [
    (0, b"\x1a\x00\x00\x00\xff\x10\x04Too many sessions: 1000"),
    (
        PROTOCOL_41,
        b"\x20\x00\x00\x00\xff\x10\x04#08004Too many sessions: 1000",
    ),
];

static CHANGED: [(u32, &[u8]); 2] = [
    (0, b"\x07\x00\x00\x00\x00\x01\x00\x03\x00\x03\x00"),
    (FOUND_ROWS, b"\x07\x00\x00\x00\x00\x02\x00\x03\x00\x03\x00"),
];

#[test]
fn one_packet_by_the_capabilities(rt: HostRuntime) -> Result<(), Fail> {
    let refused = Reply::refusal(Cause::TooManySessions, false);
    let changed = Reply::Ok {
        affected: 1,
        found: 2,
        warnings: 3,
        tx: true,
        auto: true,
    };
    for (caps, bytes) in &REFUSED {
        assert_encoded(&rt, &refused, *caps, 0, bytes)?;
    }
    for (caps, bytes) in &CHANGED {
        assert_encoded(&rt, &changed, *caps, 0, bytes)?;
    }
    Ok(())
}

/// Numbers at both ends of each length, as an OK has them.
static COUNTS: [(u64, &[u8]); 8] = [
    (0, b"\x00"),
    (250, b"\xfa"),
    (251, b"\xfc\xfb\x00"),
    (65_535, b"\xfc\xff\xff"),
    (65_536, b"\xfd\x00\x00\x01"),
    (16_777_215, b"\xfd\xff\xff\xff"),
    (16_777_216, b"\xfe\x00\x00\x00\x01\x00\x00\x00\x00"),
    (u64::MAX, b"\xfe\xff\xff\xff\xff\xff\xff\xff\xff"),
];

#[test]
fn numbers_take_as_many_bytes_as_they_need(rt: HostRuntime) -> Result<(), Fail> {
    for (count, bytes) in &COUNTS {
        let encoded = encode(rt.alloc(), &Reply::done(*count, false, true), 0, 0)?;
        assert_eq!(rt; encoded.len(), bytes.len() + 10);
        assert!(rt; encoded[5..].starts_with(*bytes));
    }
    Ok(())
}
