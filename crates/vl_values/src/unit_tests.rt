use crate::bytes::Bytes;
use crate::items::Items;
use crate::key::Key;
use crate::order::cmp;
use crate::pred::Pred;
use crate::row::Row;
use crate::test::Test;
use crate::tests::Tests;
use crate::try_copy::TryCopy;
use crate::value::{Value, text_of};
use std::alloc::{AllocError, Global};
use std::cmp::Ordering;
use std::process::Abort;
use std::test::Fail;

fn text(alloc: Global, bytes: &[u8]) -> Result<Value, AllocError> {
    let bytes = Bytes::from_slice(alloc, bytes)?;
    Ok(Value::Bytes(bytes))
}

/// Values in their order.
fn ascending(alloc: Global) -> Result<Vec<Value>, AllocError> {
    let mut values = vec![in alloc;
        Value::Null,
        Value::Int(i64::MIN),
        Value::Int(-1),
        Value::Int(0),
        Value::Uint(0),
        Value::Int(1),
        Value::Uint(1),
        Value::Uint(2),
        Value::Int(i64::MAX),
        Value::Uint(9223372036854775807),
        Value::Uint(9223372036854775808),
        Value::Uint(u64::MAX),
    ]?;
    let texts: [&[u8]; 7] = [b"", b"\x00", b"10", b"9", b"a", b"a\x00", b"\xff"];
    for bytes in texts {
        values.push(text(alloc, bytes)?)?;
    }
    Ok(values)
}

#[test]
fn null_stands_before_numbers_and_numbers_before_bytes(rt: HostRuntime) -> Result<(), Fail> {
    let values = ascending(rt.alloc())?;
    assert_eq!(rt; values.len(), 19);
    for (i, a) in values.iter().enumerate() {
        for (j, b) in values.iter().enumerate() {
            assert_eq!(rt; cmp(a, b), i.cmp(&j), "{a:?} against {b:?}");
        }
    }
    Ok(())
}

fn assert_text(rt: &impl Abort, alloc: Global, value: Value, want: &[u8]) -> Result<(), Fail> {
    let told = text_of(alloc, &value)?;
    assert_eq!(rt; told.as_slice(), want);
    Ok(())
}

#[test]
fn numbers_are_told_in_decimal(rt: HostRuntime) -> Result<(), Fail> {
    let alloc = rt.alloc();
    assert_text(&rt, alloc, Value::Null, b"")?;
    assert_text(&rt, alloc, Value::Int(0), b"0")?;
    assert_text(&rt, alloc, Value::Int(-1), b"-1")?;
    assert_text(&rt, alloc, Value::Int(i64::MIN), b"-9223372036854775808")?;
    assert_text(&rt, alloc, Value::Int(i64::MAX), b"9223372036854775807")?;
    assert_text(&rt, alloc, Value::Uint(0), b"0")?;
    assert_text(&rt, alloc, Value::Uint(u64::MAX), b"18446744073709551615")?;
    assert_text(&rt, alloc, text(alloc, b"a'\x00")?, b"a'\x00")
}

#[test]
fn copies_equal_their_source(rt: HostRuntime) -> Result<(), Fail> {
    let values = ascending(rt.alloc())?;
    for value in &values {
        let copy = value.copy(rt.alloc())?;
        assert_eq!(rt; cmp(value, &copy), Ordering::Equal);
    }
    let pk = Row::from_vec(values);
    let copy = pk.copy(rt.alloc())?;
    assert_eq!(rt; copy.len(), 19);
    assert_eq!(rt; pk, copy);
    let key = Key { table: 3, pk };
    let copy = key.copy(rt.alloc())?;
    assert_eq!(rt; key, copy);
    assert_eq!(rt; copy.pk.into_vec().len(), 19);
    Ok(())
}

fn key(alloc: Global, table: u32, id: u64) -> Result<Key, AllocError> {
    let pk = vec![in alloc; Value::Uint(id)]?;
    Ok(Key {
        table,
        pk: Row::from_vec(pk),
    })
}

#[test]
fn keys_go_by_table_first(rt: HostRuntime) -> Result<(), Fail> {
    let alloc = rt.alloc();
    let keys = [key(alloc, 0, 2)?, key(alloc, 0, 10)?, key(alloc, 1, 1)?];
    assert_eq!(rt; keys[0].cmp(&keys[1]), Ordering::Less);
    assert_eq!(rt; keys[1].cmp(&keys[2]), Ordering::Less);
    assert_eq!(rt; keys[2].cmp(&keys[0]), Ordering::Greater);
    Ok(())
}

#[test]
fn a_list_of_keys_is_copied(rt: HostRuntime) -> Result<(), Fail> {
    let alloc = rt.alloc();
    assert!(rt; Items::<Key>::new(alloc).is_empty());
    let keys = Items::from_vec(vec![in alloc; key(alloc, 0, 2)?, key(alloc, 1, 1)?]?);
    let copy = keys.try_copy(alloc)?;
    assert_eq!(rt; (keys.len(), copy.len()), (2, 2));
    assert_eq!(rt; keys.as_slice(), copy.into_vec().as_slice());
    Ok(())
}

#[test]
fn each_copy_by_the_trait_equals_its_source(rt: HostRuntime) -> Result<(), Fail> {
    let alloc = rt.alloc();
    let key = key(alloc, 1, 2)?;
    assert_eq!(rt; key.try_copy(alloc)?, key);
    assert_eq!(rt; key.pk.try_copy(alloc)?, key.pk);
    assert_eq!(rt; text(alloc, b"a")?.try_copy(alloc)?, text(alloc, b"a")?);
    let bytes = Bytes::from_slice(alloc, b"a")?;
    assert_eq!(rt;
        bytes.try_copy(alloc)?.into_vec().as_slice(),
        bytes.as_slice()
    );
    Ok(())
}

fn test(alloc: Global, column: u16, wanted: Value) -> Result<Test, AllocError> {
    let values = vec![in alloc; Value::Null, Value::Uint(4), wanted]?;
    Ok(Test {
        column,
        values: Row::from_vec(values),
    })
}

fn pred(alloc: Global, u: Value, name: Value) -> Result<Pred, AllocError> {
    let tests = vec![in alloc; test(alloc, 1, u)?, test(alloc, 2, name)?]?;
    Ok(Pred {
        table: 0,
        tests: Tests::from_vec(tests),
    })
}

#[test]
fn a_row_matches_where_it_meets_each_test(rt: HostRuntime) -> Result<(), Fail> {
    let alloc = rt.alloc();
    let both = pred(alloc, Value::Uint(7), text(alloc, b"a")?)?;
    let a = || text(rt.alloc(), b"a");
    for (row, matches) in [
        (vec![in alloc; Value::Uint(1), Value::Uint(7), a()?]?, true),
        (vec![in alloc; Value::Uint(1), Value::Uint(4), a()?]?, true),
        (vec![in alloc; Value::Uint(1), Value::Uint(5), a()?]?, false),
        (vec![in alloc; Value::Uint(1), Value::Int(7), a()?]?, false),
        (vec![in alloc; Value::Uint(1), Value::Null, a()?]?, false),
        (vec![in alloc; Value::Uint(1), Value::Uint(7)]?, false),
        (
            vec![in alloc; Value::Uint(1), Value::Uint(7), Value::Null]?,
            false,
        ),
    ] {
        assert_eq!(rt; both.matches(&row), matches, "{row:?}");
    }
    let none = Pred {
        table: 0,
        tests: Tests::from_vec(Vec::new(alloc)),
    };
    assert!(rt; none.matches(&[Value::Null]));
    Ok(())
}
