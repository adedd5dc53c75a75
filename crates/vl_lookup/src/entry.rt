ghost use Rattle.std.specs.Prelude.{◌≡◌, ◌<◌, ◌++◌, ℕ, Some, IfOk, IsTrue, filter, get_or, length, map, not, position, ◌==◌, ◌∷◌, slice_index_or, []};
ghost use Rattle.std.specs.Option.{option_map_or};
ghost use Rattle.vl_values.specs.declared.value.Value.TheVariants.{Bytes as AsBytes, Null};
ghost use Rattle.vl_model.specs.Entries.{from_columns};
ghost use Rattle.vl_lookup.specs.Entry.{at, entry_row, entry_value, given_at, test_of};

use std::alloc::{AllocError, Global};
use vl_catalog::{Catalog, Lookup, Table};
use vl_values::bytes::Bytes;
use vl_values::row::Row;
use vl_values::test::Test;
use vl_values::value::Value;

// The columns behind those that are listed, but one.
fn add_others(columns: &mut Vec<usize>, key: &[usize], but: usize) -> Result<(), AllocError>
    ensures { IfOk result (λ _. columns.new.items ≡ columns.old.items ++ filter (λ k. not (k == but)) key.now) }
{
    for column in key {
        if *column != but {
            columns.push(*column)?;
        }
    }
    Ok(())
}

/// The owner's columns whose values an entry has: the lookup's column, and behind it the other columns of
/// the primary key where the lookup isn't unique.
pub(crate) fn from_columns(
    alloc: Global,
    lookup: &Lookup,
    owner: &Table,
    column: usize,
) -> Result<Vec<usize>, AllocError>
    requires { lookup.now.column ≡ Some column }
    ensures { IfOk result (λ columns. columns.items ≡ from_columns lookup.now owner.now) }
{
    let mut columns = Vec::with_capacity(alloc, owner.pk.len().saturating_add(1))?;
    columns.push(column)?;
    if !lookup.unique {
        add_others(&mut columns, owner.pk.as_slice(), column)?;
    }
    Ok(columns)
}

fn place_of(from: &[usize], n: usize) -> Option<usize>
    ensures { result ≡ position (λ m. m == n) from.now }
{
    from.iter().position(|m| *m == n)
}

// Whether the column in place k stands nowhere before it.
fn is_first_at(from: &[usize], k: usize) -> bool
    ensures { IsTrue result → position (λ m. m == get_or from.now k 0) from.now ≡ Some k }
{
    match from.get(k) {
        Some(n) => place_of(from, *n) == Some(k),
        None => false,
    }
}

/// Whether no column stands among these twice.
pub(crate) fn is_each_once(from: &[usize]) -> bool
    ensures { IsTrue result → (k : ℕ) → k < length from.now → position (λ m. m == get_or from.now k 0) from.now ≡ Some k }
{
    for k in 0..from.len() {
        if !is_first_at(from, k) {
            return false;
        }
    }
    true
}

fn value_at(alloc: Global, row: &[Value], n: usize) -> Result<Value, AllocError>
    ensures { IfOk result (λ value. value ≡ at row.now n) }
{
    match row.get(n) {
        Some(value) => value.copy(alloc),
        None => Ok(Value::Null),
    }
}

fn given_at(alloc: Global, row: &[Value], columns: &[usize], k: usize) -> Result<Value, AllocError>
    ensures { IfOk result (λ value. value ≡ given_at row.now columns.now k) }
{
    match columns.get(k) {
        Some(column) => value_at(alloc, row, *column),
        None => Ok(Value::Null),
    }
}

fn ksid_value(alloc: Global, ksid: &[u8]) -> Result<Value, AllocError>
    ensures { IfOk result (λ value. value ≡ AsBytes ksid.now) }
{
    let bytes = Bytes::from_slice(alloc, ksid)?;
    Ok(Value::Bytes(bytes))
}

// The value in a column that isn't the one for the keyspace id.
fn other_value(
    alloc: Global,
    row: &[Value],
    columns: &[usize],
    from: &[usize],
    n: usize,
) -> Result<Value, AllocError>
    ensures { IfOk result (λ value. value ≡ option_map_or (given_at row.now columns.now) (position (λ m. m == n) from.now) Null) }
{
    match place_of(from, n) {
        Some(k) => given_at(alloc, row, columns, k),
        None => Ok(Value::Null),
    }
}

fn entry_value(
    alloc: Global,
    row: &[Value],
    columns: &[usize],
    from: &[usize],
    to: usize,
    ksid: &[u8],
    n: usize,
) -> Result<Value, AllocError>
    ensures { IfOk result (λ value. value ≡ entry_value row.now columns.now from.now to ksid.now n) }
{
    if n == to {
        return ksid_value(alloc, ksid);
    }
    other_value(alloc, row, columns, from, n)
}

/// The entry of a row: the keyspace id, the row's values in these columns, and NULL besides.
pub(crate) fn entry_row(
    alloc: Global,
    row: &[Value],
    columns: &[usize],
    from: &[usize],
    to: usize,
    ksid: &[u8],
    width: usize,
) -> Result<Vec<Value>, AllocError>
    ensures { IfOk result (λ values. values.items ≡ entry_row row.now columns.now from.now to ksid.now width) }
{
    let mut values = Vec::with_capacity(alloc, width)?;
    for n in 0..width {
        let value = entry_value(alloc, row, columns, from, to, ksid, n)?;
        values.push(value)?;
    }
    Ok(values)
}

fn test_of(alloc: Global, row: &[Value], column: usize) -> Result<Test, AllocError>
    ensures { IfOk result (λ test. test ≡ test_of row.now column) }
{
    let Ok(number) = u16::try_from(column) else {
        return Err(AllocError);
    };
    let value = value_at(alloc, row, column)?;
    let mut values = Vec::with_capacity(alloc, 1)?;
    values.push(value)?;
    Ok(Test {
        column: number,
        values: Row::from_vec(values),
    })
}

/// The tests that these columns have the row's values.
pub(crate) fn tests_of(
    alloc: Global,
    row: &[Value],
    columns: &[usize],
) -> Result<Vec<Test>, AllocError>
    ensures { IfOk result (λ tests. tests.items ≡ map (test_of row.now) columns.now) }
{
    let mut tests = Vec::with_capacity(alloc, columns.len())?;
    for column in columns {
        tests.push(test_of(alloc, row, *column)?)?;
    }
    Ok(tests)
}
