ghost use Rattle.std.specs.Prelude.{◌≡◌, ◌==◌, ◌++◌, [], IfOk, OnOk, length};
ghost use Rattle.std.specs.List.{cons_option, filter_map, range_with_len};
ghost use Rattle.vl_select.specs.Columns.{column_at, column_of, columns_in, columns_of, count_column, flag, flags_of, keyspace_name, unsigned_flag};

use std::alloc::{AllocError, Global};
use vl_catalog::{Catalog, Column, Table};
use vl_plan::projection::Projection;
use vl_values::TableNo;
use vl_values::bytes::Bytes;
use vl_values::col_type::ColType;
use vl_values::reply_column::ReplyColumn;

const NOT_NULL: u16 = 1;

const PRIMARY_KEY: u16 = 2;

const UNSIGNED: u16 = 32;

fn unsigned_flag(ty: ColType) -> u16
    ensures { result ≡ unsigned_flag ty }
{
    match ty {
        ColType::BigUint | ColType::Uint32 => UNSIGNED,
        ColType::BigInt | ColType::Int | ColType::VarChar(_) | ColType::VarBinary(_) => 0,
    }
}

fn flags_of(table: &Table, n: usize, column: &Column) -> u16
    ensures { result ≡ flags_of table.now n column.now }
{
    let not_null = if column.nullable { 0 } else { NOT_NULL };
    let in_key = if table.pk.as_slice().contains(&n) {
        PRIMARY_KEY
    } else {
        0
    };
    not_null + in_key + unsigned_flag(column.ty)
}

fn keyspace_name(alloc: Global, catalog: &Catalog, keyspace: usize) -> Result<Bytes, AllocError>
    ensures { IfOk result (λ name. name ≡ keyspace_name catalog.now keyspace) }
{
    match catalog.keyspaces.as_slice().get(keyspace) {
        Some(keyspace) => keyspace.name.copy(alloc),
        None => Ok(Bytes::from_vec(Vec::new(alloc))),
    }
}

fn column_of(
    alloc: Global,
    catalog: &Catalog,
    table: &Table,
    n: usize,
    column: &Column,
) -> Result<ReplyColumn, AllocError>
    ensures { IfOk result (λ it. it ≡ column_of catalog.now table.now n column.now) }
{
    Ok(ReplyColumn {
        schema: keyspace_name(alloc, catalog, table.keyspace)?,
        table: table.name.copy(alloc)?,
        name: column.name.copy(alloc)?,
        ty: column.ty,
        flags: flags_of(table, n, column),
    })
}

// Column n of a table, if it exists.
fn column_at(
    alloc: Global,
    catalog: &Catalog,
    table: &Table,
    n: usize,
) -> Result<Option<ReplyColumn>, AllocError>
    ensures { IfOk result (λ it. it ≡ column_at catalog.now table.now n) }
{
    match table.columns.as_slice().get(n) {
        Some(column) => Ok(Some(column_of(alloc, catalog, table, n, column)?)),
        None => Ok(None),
    }
}

// Adds a column, if there is one.
fn add(columns: &mut Vec<ReplyColumn>, column: Option<ReplyColumn>) -> Result<(), AllocError>
    ensures { OnOk result (columns.new.items ≡ columns.old.items ++ cons_option column []) }
{
    if let Some(column) = column {
        columns.push(column)?;
    }
    Ok(())
}

fn count_column(alloc: Global) -> Result<ReplyColumn, AllocError>
    ensures { IfOk result (λ it. it ≡ count_column) }
{
    Ok(ReplyColumn {
        schema: Bytes::from_vec(Vec::new(alloc)),
        table: Bytes::from_vec(Vec::new(alloc)),
        name: Bytes::from_slice(alloc, b"COUNT(*)")?,
        ty: ColType::BigUint,
        flags: NOT_NULL + UNSIGNED,
    })
}

// Those of all columns of a table.
fn all_columns(
    alloc: Global,
    catalog: &Catalog,
    table: &Table,
) -> Result<Vec<ReplyColumn>, AllocError>
    ensures { IfOk result (λ columns. columns.items ≡ filter_map (column_at catalog.now table.now) (range_with_len 0 (length table.now.columns))) }
{
    let count = table.columns.len();
    let mut columns = Vec::with_capacity(alloc, count)?;
    for n in 0..count {
        let column = column_at(alloc, catalog, table, n)?;
        add(&mut columns, column)?;
    }
    Ok(columns)
}

// Those of these columns of a table.
fn some_columns(
    alloc: Global,
    catalog: &Catalog,
    table: &Table,
    numbers: &[usize],
) -> Result<Vec<ReplyColumn>, AllocError>
    ensures { IfOk result (λ columns. columns.items ≡ filter_map (column_at catalog.now table.now) numbers.now) }
{
    let mut columns = Vec::with_capacity(alloc, numbers.len())?;
    for n in numbers {
        let column = column_at(alloc, catalog, table, *n)?;
        add(&mut columns, column)?;
    }
    Ok(columns)
}

fn columns_in(
    alloc: Global,
    catalog: &Catalog,
    what: &Projection,
    table: &Table,
) -> Result<Vec<ReplyColumn>, AllocError>
    ensures { IfOk result (λ columns. columns.items ≡ columns_in catalog.now what.now table.now) }
{
    match what {
        Projection::All => all_columns(alloc, catalog, table),
        Projection::Count => {
            let mut columns = Vec::with_capacity(alloc, 1)?;
            columns.push(count_column(alloc)?)?;
            Ok(columns)
        }
        Projection::Columns(numbers) => { some_columns(alloc, catalog, table, numbers.as_slice()) }
    }
}

/// The columns of the result set of a SELECT from the table of this number.
pub fn columns_of(
    alloc: Global,
    catalog: &Catalog,
    number: TableNo,
    what: &Projection,
) -> Result<Vec<ReplyColumn>, AllocError>
    ensures { IfOk result (λ columns. columns.items ≡ columns_of catalog.now number what.now) }
{
    match catalog.tables.as_slice().get(number as usize) {
        Some(table) => columns_in(alloc, catalog, what, table),
        None => Ok(Vec::new(alloc)),
    }
}
