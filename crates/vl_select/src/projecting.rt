ghost use Rattle.std.specs.Prelude.{◌≡◌, false, ◌<◌, ℕ, [], ◌∷◌, ◌==◌, IfOk, IfSome, OnOk, drop, length, map, take};
ghost use Rattle.std.specs.List.{list_any};
ghost use Rattle.vl_values.specs.declared.value.Value.TheVariants.{Null, Uint};
ghost use Rattle.vl_select.specs.Picking.{named_again};
ghost use Rattle.vl_select.specs.Results.{picked, projected};
ghost use Rattle.vl_select.specs.Sorting.{value_in};

use std::alloc::{AllocError, Global};
use vl_plan::projection::Projection;
use vl_values::ColumnNo;
use vl_values::key::Key;
use vl_values::row::Row;
use vl_values::value::Value;

// For each of these columns, whether it stands there again behind.
fn named_again(alloc: Global, columns: &[usize]) -> Result<Vec<bool>, AllocError>
    ensures { IfOk result (λ again. again.items ≡ named_again columns.now) }
{
    let count = columns.len();
    let mut again = Vec::with_capacity(alloc, count)?;
    for n in 0..count {
        let rest = &columns[n + 1..];
        again.push(rest.contains(&columns[n]))?;
    }
    Ok(again)
}

// The row's value in a column, which is copied where it is wanted again.
fn value_of(
    alloc: Global,
    row: &mut Vec<Value>,
    column: ColumnNo,
    again: bool,
) -> Result<Value, AllocError>
    ensures value { IfOk result (λ value. value ≡ value_in column row.old.items) }
    ensures others { OnOk result ((other : ℕ) → (again ≡ false → other ≡ column → ⊥) → value_in other row.new.items ≡ value_in other row.old.items) }
{
    if column >= row.len() {
        return Ok(Value::Null);
    }
    if again {
        return row[column].copy(alloc);
    }
    Ok(std::mem::replace(&mut row[column], Value::Null))
}

// The row's values in these columns.
fn picked(alloc: Global, row: Row, columns: &[usize], again: &[bool]) -> Result<Row, AllocError>
    requires { again.now ≡ named_again columns.now }
    ensures { IfOk result (λ values. values ≡ picked columns.now row) }
{
    let mut left = row.into_vec();
    let mut values = Vec::with_capacity(alloc, columns.len())?;
    for n in 0..columns.len() {
        values.push(value_of(alloc, &mut left, columns[n], again[n])?)?;
    }
    Ok(Row::from_vec(values))
}

// The rows with these columns alone.
fn all_picked(
    alloc: Global,
    rows: Vec<(Key, Row)>,
    columns: &[usize],
) -> Result<Vec<Row>, AllocError>
    ensures { IfOk result (λ all. all.items ≡ map (λ row. picked columns.now row.1) rows.items) }
{
    let again = named_again(alloc, columns)?;
    let mut all = Vec::with_capacity(alloc, rows.len())?;
    for found in rows {
        let (_, row) = found;
        all.push(picked(alloc, row, columns, &again)?)?;
    }
    Ok(all)
}

// The rows without their keys.
fn all_whole(alloc: Global, rows: Vec<(Key, Row)>) -> Result<Vec<Row>, AllocError>
    ensures { IfOk result (λ all. all.items ≡ map (λ row. row.1) rows.items) }
{
    let mut all = Vec::with_capacity(alloc, rows.len())?;
    for found in rows {
        let (_, row) = found;
        all.push(row)?;
    }
    Ok(all)
}

// The row of a COUNT(*).
fn counted(alloc: Global, found: u64) -> Result<Vec<Row>, AllocError>
    ensures { IfOk result (λ all. all.items ≡ (Uint found ∷ []) ∷ []) }
{
    let mut values = Vec::with_capacity(alloc, 1)?;
    values.push(Value::Uint(found))?;
    let mut all = Vec::with_capacity(alloc, 1)?;
    all.push(Row::from_vec(values))?;
    Ok(all)
}

/// What a SELECT gives of rows. Whole rows and values are moved; a value is copied where its column is named
/// once more.
pub(crate) fn projected(
    alloc: Global,
    what: &Projection,
    found: u64,
    rows: Vec<(Key, Row)>,
) -> Result<Vec<Row>, AllocError>
    ensures { IfOk result (λ all. all.items ≡ projected what.now found rows.items) }
{
    match what {
        Projection::All => all_whole(alloc, rows),
        Projection::Count => counted(alloc, found),
        Projection::Columns(columns) => all_picked(alloc, rows, columns.as_slice()),
    }
}
