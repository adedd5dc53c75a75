use crate::rows::Rows;
use std::alloc::{AllocError, Global};
use std::test::Fail;
use vl_values::ConnNo;
use vl_values::key::Key;
use vl_values::pred::Pred;
use vl_values::row::Row;
use vl_values::test::Test;
use vl_values::tests::Tests;
use vl_values::value::Value;

// A table of keys 1 to 3 with one more column, the colour: a number or NULL.
const TABLE: u32 = 4;

const RED: u64 = 10;

const BLUE: u64 = 20;

#[derive(Clone, Copy, Debug)]
enum Call {
    Put(u64, Option<u64>, ConnNo),
    Remove(u64, ConnNo),
    Settle(ConnNo),
    Abandon(ConnNo),
}

// What the calls before left: the red keys that all see, the red keys that connections 7 and 8 see,
// and the keys with any red version, each list as digits.
#[derive(Clone, Copy, Debug, PartialEq, Eq)]
struct View {
    all: u64,
    seven: u64,
    eight: u64,
    any: u64,
}

fn seen(all: u64, seven: u64, eight: u64, any: u64) -> View {
    View {
        all,
        seven,
        eight,
        any,
    }
}

fn key(alloc: Global, number: u64) -> Result<Key, AllocError> {
    let mut values = Vec::new(alloc);
    values.push(Value::Uint(number))?;
    Ok(Key {
        table: TABLE,
        pk: Row::from_vec(values),
    })
}

fn row(alloc: Global, number: u64, colour: Option<u64>) -> Result<Row, AllocError> {
    let mut values = Vec::new(alloc);
    values.push(Value::Uint(number))?;
    match colour {
        Some(colour) => values.push(Value::Uint(colour))?,
        None => values.push(Value::Null)?,
    }
    Ok(Row::from_vec(values))
}

// Colour is red or NULL, which no row meets by its NULL.
fn is_red(alloc: Global, table: u32) -> Result<Pred, AllocError> {
    let mut values = Vec::new(alloc);
    values.push(Value::Uint(RED))?;
    values.push(Value::Null)?;
    let mut tests = Vec::new(alloc);
    tests.push(Test {
        column: 1,
        values: Row::from_vec(values),
    })?;
    Ok(Pred {
        table,
        tests: Tests::from_vec(tests),
    })
}

fn digit(key: &Key) -> u64 {
    match key.pk.as_slice() {
        [Value::Uint(number)] => number % 10,
        _ => 0,
    }
}

fn found(rows: &Rows, pred: &Pred, reader: Option<ConnNo>) -> Result<u64, AllocError> {
    let mut digits: u64 = 0;
    for (key, _) in &rows.find(pred, reader)? {
        digits = digits.wrapping_mul(10).wrapping_add(digit(key));
    }
    Ok(digits)
}

fn matching(rows: &Rows, pred: &Pred) -> Result<u64, AllocError> {
    let mut digits: u64 = 0;
    for key in &rows.matching(pred)? {
        digits = digits.wrapping_mul(10).wrapping_add(digit(key));
    }
    Ok(digits)
}

fn put(
    alloc: Global,
    rows: &mut Rows,
    number: u64,
    row: Option<&Row>,
    conn: ConnNo,
) -> Result<(), AllocError> {
    let key = key(alloc, number)?;
    if rows.is_free_for(&key, conn) {
        rows.put(&key, row, conn)?;
    }
    Ok(())
}

fn run(alloc: Global, rows: &mut Rows, call: Call) -> Result<(), AllocError> {
    match call {
        Call::Put(number, colour, conn) => {
            let row = row(alloc, number, colour)?;
            put(alloc, rows, number, Some(&row), conn)
        }
        Call::Remove(number, conn) => put(alloc, rows, number, None, conn),
        Call::Settle(conn) => {
            rows.settle(conn);
            Ok(())
        }
        Call::Abandon(conn) => {
            rows.abandon(conn);
            Ok(())
        }
    }
}

fn look(alloc: Global, rows: &Rows) -> Result<View, AllocError> {
    let pred = is_red(alloc, TABLE)?;
    Ok(View {
        all: found(rows, &pred, None)?,
        seven: found(rows, &pred, Some(7))?,
        eight: found(rows, &pred, Some(8))?,
        any: matching(rows, &pred)?,
    })
}

#[test]
fn a_connection_sees_its_own_changes_until_they_are_settled(rt: HostRuntime) -> Result<(), Fail> {
    let alloc = rt.alloc();
    let mut rows = Rows::new(alloc);
    let steps = [
        (Call::Put(2, Some(RED), 7), seen(0, 2, 0, 2)),
        (Call::Put(2, Some(BLUE), 8), seen(0, 2, 0, 2)),
        (Call::Put(1, Some(RED), 7), seen(0, 12, 0, 12)),
        (Call::Put(3, None, 7), seen(0, 12, 0, 12)),
        (Call::Put(3, Some(RED), 7), seen(0, 123, 0, 123)),
        (Call::Settle(8), seen(0, 123, 0, 123)),
        (Call::Settle(7), seen(123, 123, 123, 123)),
        (Call::Remove(2, 8), seen(123, 123, 13, 123)),
        (Call::Put(1, Some(BLUE), 7), seen(123, 23, 13, 123)),
        (Call::Abandon(7), seen(123, 123, 13, 123)),
        (Call::Settle(8), seen(13, 13, 13, 13)),
        (Call::Put(2, Some(RED), 8), seen(13, 13, 123, 123)),
        (Call::Abandon(8), seen(13, 13, 13, 13)),
        (Call::Put(1, None, 7), seen(13, 3, 13, 13)),
        (Call::Settle(7), seen(3, 3, 3, 3)),
    ];
    for (call, expected) in steps {
        run(alloc, &mut rows, call)?;
        assert_eq!(rt; look(alloc, &rows)?, expected, "{call:?}");
    }
    assert_eq!(rt; found(&rows, &is_red(alloc, TABLE + 1)?, None)?, 0);
    let first = rows.get(&key(alloc, 1)?, None)?;
    assert_eq!(rt; first, Some(row(alloc, 1, None)?));
    assert_eq!(rt; rows.get(&key(alloc, 2)?, None)?, None);
    Ok(())
}
