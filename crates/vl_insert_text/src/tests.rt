use super::*;
use std::test::Fail;
use vl_sql::{parse, print};

#[test]
fn texts_and_their_statements(rt: HostRuntime) -> Result<(), Fail> {
    for (text, printed) in [
        (
            b"INSERT INTO t1(id,u) VALUES(1,7)".as_slice(),
            b"INSERT INTO t1 (id, u) VALUES (1, 7)".as_slice(),
        ),
        (
            b"INSERT INTO t1(id,u) VALUES(00000000000000000001,18446744073709551615)",
            b"INSERT INTO t1 (id, u) VALUES (1, 18446744073709551615)",
        ),
    ] {
        let said = statement_of(rt.alloc(), text)?.expect(&rt, "a statement");
        assert_eq!(rt; print(rt.alloc(), &said)?.as_slice(), printed);
        // SQL reads the text as the same statement.
        let parsed = parse(rt.alloc(), text)?;
        assert_eq!(rt; print(rt.alloc(), &parsed)?.as_slice(), printed);
    }
    Ok(())
}

#[test]
fn texts_that_say_none(rt: HostRuntime) -> Result<(), Fail> {
    for text in [
        b"INSERT INTO t1(id,u) VALUES(1,18446744073709551616)".as_slice(),
        b"INSERT INTO t1(id,u) VALUES(000000000000000000001,7)",
        b"INSERT INTO t1(id,u) VALUES(,7)",
        b"INSERT INTO t1(id,u) VALUES(1,7,9)",
        b"INSERT INTO t1(id,u) VALUES(1, 7)",
        b"INSERT INTO t1(id,u) VALUES(1,7) ",
        b"insert INTO t1(id,u) VALUES(1,7)",
        b"SELECT",
        b"",
    ] {
        assert!(rt; statement_of(rt.alloc(), text)?.is_none());
    }
    Ok(())
}
