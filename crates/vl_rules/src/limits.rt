ghost use Rattle.std.specs.Prelude.{◌≡◌, ◌≤◌, ◌==◌, ◌||◌, nat_lt, length, sum_by};
ghost use Rattle.std.specs.List.{list_any};
ghost use Rattle.vl_catalog.specs.Place.{shard_count};
ghost use Rattle.vl_rules.specs.Limits.{breaks_c11, has_long_name, is_long, is_off_size, most_bytes, passes_a_limit, row_bytes};

use vl_catalog::{Catalog, Column, ColumnVindex, Keyspace, Table};
use vl_values::col_type::ColType;

const MOST_KEYSPACES: usize = 16;

const MOST_SHARDS: u32 = 64;

const MOST_TABLES: usize = 256;

const MOST_COLUMNS: usize = 64;

const MOST_LOOKUPS: usize = 8;

const MOST_NAME_BYTES: usize = 64;

const MOST_TEXT_BYTES: usize = 16_383;

const MOST_ROW_BYTES: usize = 65_535;

fn is_long(name: &[u8]) -> bool
    ensures { result ≡ is_long name.now }
{
    name.len() > MOST_NAME_BYTES
}

fn has_many_shards(catalog: &Catalog) -> bool
    ensures { result ≡ nat_lt 64 (shard_count catalog.now.rings) }
{
    match catalog.shard_count() {
        Some(count) => count > MOST_SHARDS,
        None => true,
    }
}

fn has_long_keyspace(keyspaces: &[Keyspace]) -> bool
    ensures { result ≡ list_any (λ keyspace. is_long keyspace.name) keyspaces.now }
{
    keyspaces
        .iter()
        .any(|keyspace| is_long(keyspace.name.as_slice()))
}

// Whether a limit of the whole catalog is passed.
pub(crate) fn passes_a_limit(catalog: &Catalog) -> bool
    ensures { result ≡ passes_a_limit catalog.now }
{
    catalog.keyspaces.len() > MOST_KEYSPACES
        || has_many_shards(catalog)
        || catalog.tables.len() > MOST_TABLES
        || has_long_keyspace(catalog.keyspaces.as_slice())
}

// The greatest number of bytes of a value of the type, where a number counts 8.
fn most_bytes(ty: ColType) -> usize
    ensures value { result ≡ most_bytes ty }
    ensures small { result ≤ 65535 }
{
    match ty {
        ColType::BigInt | ColType::BigUint | ColType::Int | ColType::Uint32 => 8,
        ColType::VarChar(n) => n as usize,
        ColType::VarBinary(n) => n as usize,
    }
}

fn is_off_size(ty: ColType) -> bool
    ensures { result ≡ is_off_size ty }
{
    let bytes = most_bytes(ty);
    bytes == 0 || bytes > MOST_TEXT_BYTES
}

fn has_off_size(columns: &[Column]) -> bool
    ensures { result ≡ list_any (λ column. is_off_size column.ty) columns.now }
{
    columns.iter().any(|column| is_off_size(column.ty))
}

fn has_long_column(columns: &[Column]) -> bool
    ensures { result ≡ list_any (λ column. is_long column.name) columns.now }
{
    columns.iter().any(|column| is_long(column.name.as_slice()))
}

fn has_long_vindex(vindexes: &[ColumnVindex]) -> bool
    ensures { result ≡ list_any (λ vindex. is_long vindex.vindex) vindexes.now }
{
    vindexes
        .iter()
        .any(|vindex| is_long(vindex.vindex.as_slice()))
}

fn has_long_name(table: &Table) -> bool
    ensures { result ≡ has_long_name table.now }
{
    is_long(table.name.as_slice())
        || has_long_column(table.columns.as_slice())
        || has_long_vindex(table.column_vindexes.as_slice())
}

fn row_bytes(columns: &[Column]) -> usize
    requires { length columns.now ≤ 64 }
    ensures { result ≡ row_bytes columns.now }
{
    let mut bytes: usize = 0;
    for column in columns {
        bytes += most_bytes(column.ty);
    }
    bytes
}

// C11, of one table.
pub(crate) fn breaks_c11(table: &Table) -> bool
    ensures { result ≡ breaks_c11 table.now }
{
    let columns = table.columns.as_slice();
    columns.len() > MOST_COLUMNS
        || table.lookups.len() > MOST_LOOKUPS
        || has_long_name(table)
        || has_off_size(columns)
        || row_bytes(columns) > MOST_ROW_BYTES
}
