use crate::result::result_of;
use std::alloc::{AllocError, Global};
use std::process::Abort;
use std::test::Fail;
use vl_plan::projection::Projection;
use vl_plan::sort::Sort;
use vl_port::limits::Limits;
use vl_statement::tally::Tally;
use vl_values::bytes::Bytes;
use vl_values::items::Items;
use vl_values::key::Key;
use vl_values::limit::Limit;
use vl_values::row::Row;
use vl_values::value::Value;

/// A row: its key, which is its column 0 too, and what its columns 1 and 2 have, or NULL.
type Given = (u64, Option<u64>, Option<&'static [u8]>);

static ROWS: [Given; 5] = [
    (3, Some(5), Some(b"b")),
    (1, None, Some(b"a")),
    (2, Some(5), None),
    (5, Some(4), Some(b"a")),
    (4, None, Some(b"c")),
];

fn row_of(alloc: Global, given: &Given) -> Result<(Key, Row), AllocError> {
    let mut pk = Vec::new(alloc);
    pk.push(Value::Uint(given.0))?;
    let mut values = Vec::new(alloc);
    values.push(Value::Uint(given.0))?;
    values.push(match given.1 {
        Some(n) => Value::Uint(n),
        None => Value::Null,
    })?;
    values.push(match given.2 {
        Some(text) => Value::Bytes(Bytes::from_slice(alloc, text)?),
        None => Value::Null,
    })?;
    let key = Key {
        table: 0,
        pk: Row::from_vec(pk),
    };
    Ok((key, Row::from_vec(values)))
}

fn rows_of(alloc: Global, given: &[Given]) -> Result<Vec<(Key, Row)>, AllocError> {
    let mut rows = Vec::new(alloc);
    for row in given {
        rows.push(row_of(alloc, row)?)?;
    }
    Ok(rows)
}

// What ORDER BY names, with whether the order is descending; LIMIT; and the keys of the rows that are left.
type Ordered = (&'static [(usize, bool)], Option<u64>, &'static [u64]);

static ORDERS: [Ordered; 8] = [
    (&[], None, &[3, 1, 2, 5, 4]),
    (&[], Some(2), &[3, 1]),
    (&[(1, false)], None, &[1, 4, 5, 2, 3]),
    (&[(1, true)], None, &[2, 3, 5, 1, 4]),
    (&[(1, false), (2, true)], None, &[4, 1, 5, 3, 2]),
    (&[(2, false), (0, true)], Some(9), &[2, 5, 1, 3, 4]),
    (&[(1, false)], Some(3), &[1, 4, 5]),
    (&[(1, false)], Some(0), &[]),
];

fn sorts_of(alloc: Global, sorts: &[(usize, bool)]) -> Result<Vec<Sort>, AllocError> {
    let mut list = Vec::new(alloc);
    for (column, descending) in sorts {
        list.push(Sort {
            column: *column,
            descending: *descending,
        })?;
    }
    Ok(list)
}

fn columns(alloc: Global, numbers: &[usize]) -> Result<Projection, AllocError> {
    let numbers = Vec::from_slice(alloc, numbers)?;
    Ok(Projection::Columns(Items::from_vec(numbers)))
}

// The numbers in the first column of the rows.
fn firsts(alloc: Global, rows: &[Row]) -> Result<Vec<u64>, AllocError> {
    let mut numbers = Vec::new(alloc);
    for row in rows {
        numbers.push(match row.as_slice() {
            [Value::Uint(n)] => *n,
            _ => 99,
        })?;
    }
    Ok(numbers)
}

#[test]
fn rows_are_ordered_and_then_cut(rt: HostRuntime) -> Result<(), Fail> {
    let alloc = rt.alloc();
    for (sorts, limit, expected) in &ORDERS {
        let rows = rows_of(alloc, &ROWS)?;
        let sorts = sorts_of(alloc, sorts)?;
        let what = columns(alloc, &[0])?;
        let rows = result_of(alloc, &what, &sorts, *limit, 0, rows)?;
        let numbers = firsts(alloc, &rows)?;
        assert_eq!(&rt; numbers.as_slice(), *expected);
    }
    Ok(())
}

#[test]
fn rows_are_projected(rt: HostRuntime) -> Result<(), Fail> {
    let alloc = rt.alloc();
    let (_, whole) = row_of(alloc, &ROWS[0])?;
    let all = result_of(
        alloc,
        &Projection::All,
        &[],
        Some(1),
        0,
        rows_of(alloc, &ROWS)?,
    )?;
    assert!(&rt; all.len() == 1 && all[0] == whole);

    let counted = result_of(alloc, &Projection::Count, &[], None, 7, Vec::new(alloc))?;
    let numbers = firsts(alloc, &counted)?;
    assert_eq!(&rt; numbers.as_slice(), [7].as_slice());

    let twice = columns(alloc, &[2, 0, 2])?;
    let rows = result_of(alloc, &twice, &[], Some(1), 0, rows_of(alloc, &ROWS)?)?;
    let mut values = Vec::new(alloc);
    values.push(Value::Bytes(Bytes::from_slice(alloc, b"b")?))?;
    values.push(Value::Uint(3))?;
    values.push(Value::Bytes(Bytes::from_slice(alloc, b"b")?))?;
    assert!(&rt; rows.len() == 1 && rows[0] == Row::from_vec(values));
    Ok(())
}

// The limits of rows and of bytes, and the tally of all rows or the limit that is told.
type Counted = (u32, u64, Result<(u64, u64), (Limit, u64)>);

static TALLIES: [Counted; 5] = [
    (5, 12, Ok((5, 12))),
    (4, 12, Err((Limit::ResultRows, 4))),
    (5, 11, Err((Limit::ResultBytes, 11))),
    (2, 4, Err((Limit::ResultBytes, 4))),
    (0, 0, Err((Limit::ResultRows, 0))),
];

#[test]
fn the_first_row_past_a_limit_tells_it(rt: HostRuntime) -> Result<(), Fail> {
    let alloc = rt.alloc();
    for (result_rows, result_bytes, expected) in &TALLIES {
        let limits = Limits {
            tries: 1,
            changes: 1,
            result_rows: *result_rows,
            result_bytes: *result_bytes,
            tail: 0,
            trace: false,
        };
        let rows = rows_of(alloc, &ROWS)?;
        let told = match Tally::new().with_rows(&limits, &rows) {
            Ok(tally) => Ok((tally.rows, tally.bytes)),
            Err(passed) => Err(passed),
        };
        assert_eq!(&rt; told, *expected);
    }
    Ok(())
}
