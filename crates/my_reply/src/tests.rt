use super::*;
use std::alloc::Global;
use std::test::Fail;
use vl_values::cause::Cause;
use vl_values::reply::Reply;

const INSERTED: &[u8] = b"\x07\x00\x00\x01\x00\x01\x00\x02\x00\x00\x00";

const UNKNOWN: &[u8] = b"\x18\x00\x00\x01\xff\x17\x04#08S01Unknown command";

#[test]
fn an_ok_and_an_err_have_the_bytes_of_the_protocol(rt: HostRuntime) -> Result<(), Fail> {
    let mut buf = ShortBuf::new(rt.alloc())?;
    encode_short(&Reply::done(1, false, true), PROTOCOL_41, 1, &mut buf);
    assert_eq!(rt; buf.as_slice(), INSERTED);
    encode_short(
        &Reply::refusal(Cause::UnknownCommand, false),
        PROTOCOL_41,
        1,
        &mut buf,
    );
    assert_eq!(rt; buf.as_slice(), UNKNOWN);
    let many = Reply::Ok {
        affected: 3,
        found: 66_051,
        warnings: 2,
        tx: true,
        auto: false,
    };
    encode_short(&many, PROTOCOL_41 | FOUND_ROWS, 2, &mut buf);
    assert_eq!(rt;
        buf.as_slice(),
        b"\x0a\x00\x00\x02\x00\xfd\x03\x02\x01\x00\x01\x00\x02\x00".as_slice()
    );
    Ok(())
}

/// The counts of an OK; the code, whether there is a SQLSTATE, and the length of the text of an ERR; or
/// the place of the fault.
fn summary(alloc: Global, bytes: &[u8]) -> Result<[u64; 4], BadReply> {
    match decode(alloc, bytes)? {
        Wire::Ok {
            affected,
            insert_id,
            status,
            warnings,
        } => Ok([affected, insert_id, u64::from(status), u64::from(warnings)]),
        Wire::Rows {
            columns,
            rows,
            status,
            warnings,
        } => Ok([
            columns.len() as u64,
            rows.len() as u64,
            u64::from(status),
            u64::from(warnings),
        ]),
        Wire::Err { code, state, text } => Ok([
            u64::from(code),
            u64::from(state.is_some()),
            text.as_slice().len() as u64,
            0,
        ]),
    }
}

#[test]
fn packets_are_read_or_their_first_fault_is_named(rt: HostRuntime) {
    for (bytes, read) in [
        (INSERTED, Ok([1, 0, 2, 0])),
        (UNKNOWN, Ok([1047, 1, 15, 0])),
        (b"\x06\x00\x00\x00\xff\x10\x04Too", Ok([1040, 0, 3, 0])),
        (
            b"\x0b\x00\x00\x01\x00\xfc\x01\x00\xfd\x02\x01\x00\x02\x00\x05",
            Err(BadReply::Wrong { at: 15 }),
        ),
        (
            b"\x0c\x00\x00\x01\x00\xfc\x01\x00\xfd\x02\x01\x00\x02\x00\x05\x00",
            Ok([1, 258, 2, 5]),
        ),
        (b"\x07\x00\x00", Err(BadReply::Wrong { at: 3 })),
        (b"\x07\x00\x00\x01\x00", Err(BadReply::Wrong { at: 5 })),
        (b"\x01\x00\x00\x01\xfe", Err(BadReply::Wrong { at: 5 })),
        (b"\x02\x00\x00\x01\x00\xfb", Err(BadReply::Wrong { at: 5 })),
        (b"\x01\x00\x00\x01\xff\x01", Err(BadReply::Wrong { at: 5 })),
        (
            b"\x05\x00\x00\x01\xff\x10\x04#0",
            Err(BadReply::Wrong { at: 9 }),
        ),
    ] {
        assert_eq!(rt; summary(rt.alloc(), bytes), read);
    }
}
