ghost use Rattle.std.specs.Prelude.{◌≡◌, ◌<◌, ◌^◌, Some};
ghost use Rattle.std.specs.Option.{option_copied};
ghost use Rattle.vl_catalog.specs.Place.{shard_count};
ghost use Rattle.vl_record.specs.Reading.{key_at, key_in, row_at, row_in};
ghost use Rattle.vl_record.specs.Readers.{Gives, rest_of};

use crate::allowed::{has_key, is_above, is_here};
use crate::number::u32_at;
use crate::read_error::ReadError;
use crate::reader::Reader;
use crate::value::values_at;
use std::alloc::Global;
use vl_catalog::{Catalog, ShardNo, Table, TableNo};
use vl_values::key::Key;
use vl_values::row::Row;

// A key behind the number of its table.
#[tactic(auto, unfolding(crate::specs::Reading::key_in))]
fn key_in<'a>(
    alloc: Global,
    catalog: &Catalog,
    shard: ShardNo,
    before: Option<&Key>,
    number: TableNo,
    table: &Table,
    first: usize,
    r: Reader<'a>,
) -> Result<(Key, Reader<'a>), ReadError>
    requires { shard_count catalog.now.rings < 2 ^ 32 }
    ensures { Gives (λ x. (x.0, rest_of x.1)) result (key_in catalog.now shard (option_copied before.entry) number (Some table.now) first (rest_of r.entry)) }
{
    let (pk, rest) = values_at(alloc, table, true, r)?;
    let key = Key { table: number, pk };
    if is_here(catalog, shard, table, &key) && is_above(before, &key) {
        Ok((key, rest))
    } else {
        Err(ReadError::NotOurs(first))
    }
}

/// A key on this shard that stands above the one before it.
#[tactic(auto, unfolding(crate::specs::Reading::key_at, crate::specs::Reading::key_in))]
pub(crate) fn key_at<'a>(
    alloc: Global,
    catalog: &Catalog,
    shard: ShardNo,
    before: Option<&Key>,
    r: Reader<'a>,
) -> Result<(Key, Reader<'a>), ReadError>
    requires { shard_count catalog.now.rings < 2 ^ 32 }
    ensures { Gives (λ x. (x.0, rest_of x.1)) result (key_at catalog.now shard (option_copied before.entry) (rest_of r.entry)) }
{
    let (number, rest) = u32_at(r.offset, r)?;
    let Some(table) = catalog.tables.as_slice().get(number as usize) else {
        return Err(ReadError::NotOurs(r.offset));
    };
    key_in(alloc, catalog, shard, before, number, table, r.offset, rest)
}

#[tactic(auto, unfolding(crate::specs::Reading::row_in))]
fn row_in<'a>(
    alloc: Global,
    key: &Key,
    table: &Table,
    r: Reader<'a>,
) -> Result<(Row, Reader<'a>), ReadError>
    ensures { Gives (λ x. (x.0, rest_of x.1)) result (row_in key.now (Some table.now) (rest_of r.entry)) }
{
    let (row, rest) = values_at(alloc, table, false, r)?;
    if has_key(alloc, table, key, &row)? {
        Ok((row, rest))
    } else {
        Err(ReadError::NotOurs(r.offset))
    }
}

/// The row of a key.
#[tactic(auto, unfolding(crate::specs::Reading::row_in))]
pub(crate) fn row_at<'a>(
    alloc: Global,
    catalog: &Catalog,
    key: &Key,
    r: Reader<'a>,
) -> Result<(Row, Reader<'a>), ReadError>
    ensures { Gives (λ x. (x.0, rest_of x.1)) result (row_at catalog.now key.now (rest_of r.entry)) }
{
    let Some(table) = catalog.tables.as_slice().get(key.table as usize) else {
        return Err(ReadError::NotOurs(r.offset));
    };
    row_in(alloc, key, table, r)
}
