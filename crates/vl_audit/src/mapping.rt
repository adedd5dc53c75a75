ghost use Rattle.std.specs.Prelude.{◌≡◌, slice_index_or, IfOk};
ghost use Rattle.std.specs.Option.{option_copied, option_map};
ghost use Rattle.vl_values.specs.declared.value.Value.TheVariants.{Null};
ghost use Rattle.vl_model.specs.Entries.{from_columns, key_but, is_lookup_table, is_served_by};
ghost use Rattle.vl_audit.specs.Mapping.{entry_mapping, is_indexed, ksid_named, mapping_of, row_mapping, value_of, values_at};

use std::alloc::{AllocError, Global};
use vl_catalog::{Catalog, Lookup, Table};
use vl_values::TableNo;
use vl_values::bytes::Bytes;
use vl_values::key::Key;
use vl_values::row::Row;
use vl_values::value::Value;

/// What an entry says and a row needs: the values, and the keyspace id that they map to.
#[derive(Debug, PartialEq, Eq, PartialOrd, Ord, Drop)]
pub struct Mapping {
    pub values: Row,
    pub ksid: Value,
}

fn value_at(alloc: Global, row: &[Value], n: usize) -> Result<Value, AllocError>
    ensures { IfOk result (λ value. value ≡ slice_index_or row.now n Null) }
{
    match row.get(n) {
        Some(value) => value.copy(alloc),
        None => Ok(Value::Null),
    }
}

fn values_at(alloc: Global, row: &[Value], columns: &[usize]) -> Result<Vec<Value>, AllocError>
    ensures { IfOk result (λ values. values.items ≡ values_at row.now columns.now) }
{
    let mut values = Vec::with_capacity(alloc, columns.len())?;
    for column in columns {
        values.push(value_at(alloc, row, *column)?)?;
    }
    Ok(values)
}

fn mapping_of(
    alloc: Global,
    row: &[Value],
    columns: &[usize],
    ksid: &[u8],
) -> Result<Mapping, AllocError>
    ensures { IfOk result (λ mapping. mapping ≡ mapping_of row.now columns.now ksid.now) }
{
    let values = values_at(alloc, row, columns)?;
    let ksid = Bytes::from_slice(alloc, ksid)?;
    Ok(Mapping {
        values: Row::from_vec(values),
        ksid: Value::Bytes(ksid),
    })
}

fn key_but(alloc: Global, but: Option<usize>, key: &[usize]) -> Result<Vec<usize>, AllocError>
    ensures { IfOk result (λ columns. columns.items ≡ key_but but key.now) }
{
    let Some(but) = but else {
        return Vec::from_slice(alloc, key);
    };
    let mut columns = Vec::with_capacity(alloc, key.len())?;
    for column in key {
        if *column != but {
            columns.push(*column)?;
        }
    }
    Ok(columns)
}

fn from_columns(alloc: Global, lookup: &Lookup, owner: &Table) -> Result<Vec<usize>, AllocError>
    ensures { IfOk result (λ columns. columns.items ≡ from_columns lookup.now owner.now) }
{
    let mut columns = Vec::new(alloc);
    if let Some(column) = lookup.column {
        columns.push(column)?;
    }
    if !lookup.unique {
        let others = key_but(alloc, lookup.column, owner.pk.as_slice())?;
        columns.extend_from_slice(others.as_slice())?;
    }
    Ok(columns)
}

/// Whether this is the table's number.
pub(crate) fn is_table(table: TableNo, number: Option<TableNo>) -> bool
    ensures { result ≡ is_served_by table number }
{
    match number {
        None => false,
        Some(other) => other == table,
    }
}

pub(crate) fn is_lookup_table(catalog: &Catalog, table: TableNo) -> bool
    ensures { result ≡ is_lookup_table catalog.now table }
{
    catalog
        .lookups
        .as_slice()
        .iter()
        .any(|lookup| is_table(table, lookup.table))
}

/// The row's value in the lookup's column, where the row is one of the lookup's owner and the value
/// isn't NULL.
pub(crate) fn value_of<'a>(lookup: &Lookup, pair: &'a (Key, Row)) -> Option<&'a Value>
    ensures { option_copied result ≡ value_of lookup.now pair.now }
{
    if !is_table(pair.0.table, lookup.owner) {
        return None;
    }
    let Some(n) = lookup.column else {
        return None;
    };
    match pair.1.as_slice().get(n) {
        None => None,
        Some(value) => {
            if value.is_null() {
                return None;
            }
            Some(value)
        }
    }
}

/// Whether the row has a value of the lookup.
pub(crate) fn is_indexed(lookup: &Lookup, pair: &(Key, Row)) -> bool
    ensures { result ≡ is_indexed lookup.now pair.now }
{
    value_of(lookup, pair).is_some()
}

fn ksid_named(row: &[Value], to: Option<usize>) -> Option<&[u8]>
    ensures { option_map (λ ksid. ksid.now) result ≡ ksid_named row.now to }
{
    let Some(to) = to else {
        return None;
    };
    match row.get(to) {
        Some(Value::Bytes(ksid)) => Some(ksid.as_slice()),
        _ => None,
    }
}

/// What an entry of the lookup says; nothing where the row is none, or names no keyspace id.
pub(crate) fn entry_mapping(
    alloc: Global,
    lookup: &Lookup,
    pair: &(Key, Row),
) -> Result<Option<Mapping>, AllocError>
    ensures { IfOk result (λ mapping. mapping ≡ entry_mapping lookup.now pair.now) }
{
    if !is_table(pair.0.table, lookup.table) {
        return Ok(None);
    }
    let row = pair.1.as_slice();
    match ksid_named(row, lookup.to) {
        None => Ok(None),
        Some(ksid) => Ok(Some(mapping_of(alloc, row, lookup.from.as_slice(), ksid)?)),
    }
}

/// What a row with a value of the lookup needs; nothing where it has none, or no keyspace id.
pub(crate) fn row_mapping(
    alloc: Global,
    catalog: &Catalog,
    lookup: &Lookup,
    pair: &(Key, Row),
) -> Result<Option<Mapping>, AllocError>
    ensures { IfOk result (λ mapping. mapping ≡ row_mapping catalog.now lookup.now pair.now) }
{
    if !is_indexed(lookup, pair) {
        return Ok(None);
    }
    let row = pair.1.as_slice();
    let Some(owner) = catalog.tables.as_slice().get(pair.0.table as usize) else {
        return Ok(None);
    };
    match catalog.ksid_of(pair.0.table, row) {
        None => Ok(None),
        Some(ksid) => {
            let columns = from_columns(alloc, lookup, owner)?;
            Ok(Some(mapping_of(alloc, row, columns.as_slice(), ksid.as_slice())?))
        }
    }
}
