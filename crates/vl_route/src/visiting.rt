ghost use Rattle.std.specs.Prelude.{◌≡◌, ◌<◌, ◌^◌, ◌==◌, IfOk, Some, filter, length};
ghost use Rattle.std.specs.List.{list_any};
ghost use Rattle.vl_catalog.specs.Place.{shard_count};
ghost use Rattle.vl_model.specs.Entries.{named_by};
ghost use Rattle.vl_model.specs.Visiting.{entries_with, entry_reads, entry_reads_in, homes_of, keyspace_shards, ksid_named, places_of, visited};

use crate::home::home_of;
use std::alloc::{AllocError, Global};
use vl_catalog::{Catalog, LookupNo};
use vl_model::route::Route;
use vl_values::bytes::Bytes;
use vl_values::pred::Pred;
use vl_values::row::Row;
use vl_values::test::Test;
use vl_values::tests::Tests;
use vl_values::value::Value;
use vl_values::{ShardNo, TableNo};

// The shards of the rows that have one of these values in the column of the primary vindex.
fn places_of(
    alloc: Global,
    catalog: &Catalog,
    number: TableNo,
    values: &[Value],
) -> Result<Vec<ShardNo>, AllocError>
    requires { shard_count catalog.now.rings < 2 ^ 32 }
    ensures { IfOk result (λ places. places.items ≡ places_of catalog.now number values.now) }
{
    let mut places = Vec::with_capacity(alloc, values.len())?;
    for value in values {
        if let Some(place) = catalog.place_of_value(number, value) {
            places.push(place)?;
        }
    }
    Ok(places)
}

// The shards that these keyspace ids name in a keyspace.
fn homes_of(
    alloc: Global,
    catalog: &Catalog,
    keyspace: usize,
    ksids: &[Bytes],
) -> Result<Vec<ShardNo>, AllocError>
    requires shards { shard_count catalog.now.rings < 2 ^ 32 }
    requires keyspace { keyspace < length catalog.now.rings }
    ensures { IfOk result (λ places. places.items ≡ homes_of catalog.now keyspace ksids.now) }
{
    let mut places = Vec::with_capacity(alloc, ksids.len())?;
    for ksid in ksids {
        places.push(home_of(catalog, keyspace, ksid.as_slice()))?;
    }
    Ok(places)
}

// All shards of a keyspace.
fn keyspace_shards(
    alloc: Global,
    catalog: &Catalog,
    keyspace: usize,
) -> Result<Vec<ShardNo>, AllocError>
    requires { shard_count catalog.now.rings < 2 ^ 32 }
    ensures { IfOk result (λ shards. shards.items ≡ keyspace_shards catalog.now keyspace) }
{
    let first = catalog.first_shard(keyspace);
    let count = catalog.shards_in(keyspace);
    let mut shards = Vec::with_capacity(alloc, count)?;
    for n in 0..count {
        shards.push(first + n as ShardNo)?;
    }
    Ok(shards)
}

// Those of the shards that are among the places.
fn among(shards: Vec<ShardNo>, places: &[ShardNo]) -> Vec<ShardNo>
    ensures { result.items ≡ filter (λ shard. list_any (λ place. place == shard) places.now) shards.items }
{
    let mut shards = shards;
    shards.retain(|shard| places.contains(shard));
    shards
}

/// The shards that a route of the table of this number visits, in the order of their numbers. A route of a
/// lookup goes by the keyspace ids that were read in its entries; no other route looks at them.
pub fn visited(
    alloc: Global,
    catalog: &Catalog,
    number: TableNo,
    route: &Route,
    ksids: &[Bytes],
) -> Result<Vec<ShardNo>, AllocError>
    requires shards { shard_count catalog.now.rings < 2 ^ 32 }
    ensures { IfOk result (λ shards. shards.items ≡ visited catalog.now number route.now ksids.now) }
{
    let Some(table) = catalog.tables.as_slice().get(number as usize) else {
        return Ok(Vec::new(alloc));
    };
    let keyspace = table.keyspace;
    let shards = keyspace_shards(alloc, catalog, keyspace)?;
    match route {
        Route::Primary(values) => {
            let places = places_of(alloc, catalog, number, values.as_slice())?;
            Ok(among(shards, &places))
        }
        Route::Lookup(_, _) => {
            if keyspace >= catalog.rings.as_slice().len() {
                return Err(AllocError);
            }
            let places = homes_of(alloc, catalog, keyspace, ksids)?;
            Ok(among(shards, &places))
        }
        Route::All => Ok(shards),
    }
}

// The entries that have a value in this column.
fn entries_with(
    alloc: Global,
    table: TableNo,
    column: usize,
    value: &Value,
) -> Result<Pred, AllocError>
    ensures { IfOk result (λ pred. pred ≡ entries_with table column value.now) }
{
    // A table has far fewer columns.
    let Ok(column) = u16::try_from(column) else {
        return Err(AllocError);
    };
    let mut values = Vec::with_capacity(alloc, 1)?;
    values.push(value.copy(alloc)?)?;
    let mut tests = Vec::with_capacity(alloc, 1)?;
    tests.push(Test {
        column,
        values: Row::from_vec(values),
    })?;
    Ok(Pred {
        table,
        tests: Tests::from_vec(tests),
    })
}

fn entry_reads_in(
    alloc: Global,
    catalog: &Catalog,
    table: TableNo,
    column: usize,
    values: &[Value],
) -> Result<Vec<(ShardNo, Pred)>, AllocError>
    requires { shard_count catalog.now.rings < 2 ^ 32 }
    ensures { IfOk result (λ reads. reads.items ≡ entry_reads_in catalog.now (Some table) (Some column) values.now) }
{
    let mut reads = Vec::with_capacity(alloc, values.len())?;
    for value in values {
        if let Some(shard) = catalog.place_of_value(table, value) {
            reads.push((shard, entries_with(alloc, table, column, value)?))?;
        }
    }
    Ok(reads)
}

/// The reads of entries that a route begins with, each with its shard: one for each value of a route of a
/// lookup, in their order, and none for every other route.
pub fn entry_reads(
    alloc: Global,
    catalog: &Catalog,
    route: &Route,
) -> Result<Vec<(ShardNo, Pred)>, AllocError>
    requires { shard_count catalog.now.rings < 2 ^ 32 }
    ensures { IfOk result (λ reads. reads.items ≡ entry_reads catalog.now route.now) }
{
    let Route::Lookup(number, values) = route else {
        return Ok(Vec::new(alloc));
    };
    let Some(lookup) = catalog.lookups.as_slice().get(*number as usize) else {
        return Ok(Vec::new(alloc));
    };
    let Some(table) = lookup.table else {
        return Ok(Vec::new(alloc));
    };
    let Some(column) = lookup.from.as_slice().first() else {
        return Ok(Vec::new(alloc));
    };
    entry_reads_in(alloc, catalog, table, *column, values.as_slice())
}

/// The keyspace id that an entry of the lookup of this number names, if it names one.
pub fn ksid_named(catalog: &Catalog, number: LookupNo, entry: Row) -> Option<Bytes>
    ensures { result ≡ ksid_named catalog.now number entry }
{
    let Some(lookup) = catalog.lookups.as_slice().get(number as usize) else {
        return None;
    };
    let Some(to) = lookup.to else {
        return None;
    };
    named_by(entry, to)
}

/// The keyspace id that a row names in a column, if it names one.
pub fn named_by(row: Row, to: usize) -> Option<Bytes>
    ensures { result ≡ named_by to row }
{
    let mut values = row.into_vec();
    if to >= values.len() {
        return None;
    }
    match values.swap_remove(to) {
        Value::Bytes(ksid) => Some(ksid),
        Value::Null | Value::Int(_) | Value::Uint(_) => None,
    }
}
