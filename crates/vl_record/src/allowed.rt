ghost use Rattle.std.specs.Prelude.{◌≡◌, ◌<◌, ◌≤◌, ◌^◌, IfOk, length};
ghost use Rattle.std.specs.Option.{option_copied};
ghost use Rattle.vl_values.specs.Fit.{is_between, is_held, is_of_type};
ghost use Rattle.vl_catalog.specs.Place.{place_of_value, shard_count};
ghost use Rattle.vl_record.specs.Allowed.{column_at, fits, has_key, is_above, is_here, is_shard, last_changed, last_key, position, primary_value, width_of};

use std::alloc::{AllocError, Global};
use std::cmp::Ordering;
use vl_catalog::{Catalog, Change, Column, Primary, ShardNo, Table};
use vl_values::col_type::ColType;
use vl_values::key::Key;
use vl_values::row::Row;
use vl_values::value::Value;

fn is_between(least: u64, most: u64, n: i64) -> bool
    ensures { result ≡ is_between least most n }
{
    match u64::try_from(n) {
        Ok(n) => n <= most,
        Err(_) => n.unsigned_abs() <= least,
    }
}

// Whether a value other than NULL is one of this type.
fn is_of_type(ty: ColType, value: &Value) -> bool
    ensures { result ≡ is_of_type ty value.now }
{
    match (ty, value) {
        (ColType::BigInt, Value::Int(n)) => {
            is_between(9_223_372_036_854_775_808, 9_223_372_036_854_775_807, *n)
        }
        (ColType::BigUint, Value::Uint(n)) => *n <= 18_446_744_073_709_551_615,
        (ColType::Int, Value::Int(n)) => is_between(2_147_483_648, 2_147_483_647, *n),
        (ColType::Uint32, Value::Uint(n)) => *n <= 4_294_967_295,
        (ColType::VarChar(most), Value::Bytes(bytes)) => bytes.len() <= usize::from(most),
        (ColType::VarBinary(most), Value::Bytes(bytes)) => bytes.len() <= usize::from(most),
        _ => false,
    }
}

// Whether the column may hold the value.
pub(crate) fn fits(column: Option<&Column>, value: &Value) -> bool
    ensures { result ≡ fits (option_copied column.entry) value.now }
{
    let Some(column) = column else {
        return false;
    };
    match value {
        Value::Null => column.nullable,
        _ => is_of_type(column.ty, value),
    }
}

// How many values a key of the table has (true), or a row (false).
pub(crate) fn width_of(table: &Table, is_key: bool) -> usize
    ensures { result ≡ width_of table.now is_key }
{
    if is_key {
        table.pk.len()
    } else {
        table.columns.len()
    }
}

// The column of the value at an index of a key, or of a row.
pub(crate) fn column_at(table: &Table, is_key: bool, index: usize) -> Option<&Column>
    ensures { option_copied result ≡ column_at table.now is_key index }
{
    let columns = table.columns.as_slice();
    if is_key {
        match table.pk.as_slice().get(index) {
            Some(column) => columns.get(*column),
            None => None,
        }
    } else {
        columns.get(index)
    }
}

// Where a column stands in the key; the key's length where it isn't in it.
fn position(column: usize, key: &[usize]) -> usize
    ensures value { result ≡ position column key.now }
    ensures bound { result ≤ length key.now }
{
    match key {
        [] => 0,
        [first, others @ ..] => {
            if *first == column {
                0
            } else {
                1 + position(column, others)
            }
        }
    }
}

// The shard of a key.
fn place_of(
    catalog: &Catalog,
    table: &Table,
    primary: Option<Primary>,
    key: &Key,
) -> Option<ShardNo>
    requires { shard_count catalog.now.rings < 2 ^ 32 }
    ensures { result ≡ place_of_value catalog.now key.now.table (primary_value table.now primary key.now.pk) }
{
    let Some(primary) = primary else {
        return catalog.place_of_value(key.table, &Value::Null);
    };
    match key
        .pk
        .as_slice()
        .get(position(primary.column, table.pk.as_slice()))
    {
        Some(value) => catalog.place_of_value(key.table, value),
        None => catalog.place_of_value(key.table, &Value::Null),
    }
}

fn is_shard(shard: ShardNo, other: Option<ShardNo>) -> bool
    ensures { result ≡ is_shard shard other }
{
    match other {
        Some(other) => other == shard,
        None => false,
    }
}

// Whether a key of the table has its place on this shard.
pub(crate) fn is_here(catalog: &Catalog, shard: ShardNo, table: &Table, key: &Key) -> bool
    requires { shard_count catalog.now.rings < 2 ^ 32 }
    ensures { result ≡ is_here catalog.now shard table.now key.now }
{
    is_shard(shard, place_of(catalog, table, table.primary, key))
}

// Whether a key stands above the one before it, if there is one.
pub(crate) fn is_above(before: Option<&Key>, key: &Key) -> bool
    ensures { result ≡ is_above (option_copied before.entry) key.now }
{
    match before {
        Some(before) => before < key,
        None => true,
    }
}

// Whether a row of the table has the key's values.
pub(crate) fn has_key(
    alloc: Global,
    table: &Table,
    key: &Key,
    row: &Row,
) -> Result<bool, AllocError>
    ensures { IfOk result (λ has. has ≡ has_key table.now key.now row.now) }
{
    let other = table.key_of(alloc, key.table, row.as_slice())?;
    Ok(key.pk == other.pk)
}

pub(crate) fn last_changed(changes: &[Change]) -> Option<&Key>
    ensures { option_copied result ≡ last_changed changes.now }
{
    match changes.last() {
        Some(change) => Some(&change.key),
        None => None,
    }
}

pub(crate) fn last_key(pairs: &[(Key, Row)]) -> Option<&Key>
    ensures { option_copied result ≡ last_key pairs.now }
{
    match pairs.last() {
        Some((key, _)) => Some(key),
        None => None,
    }
}
