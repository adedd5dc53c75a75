ghost use Rattle.std.specs.Prelude.{◌≡◌, ◌<◌, ◌==◌, Option, length, count_by};
ghost use Rattle.std.specs.List.{list_any};
ghost use Rattle.vl_rules.specs.Lookups.{breaks_c6, breaks_c8, breaks_c9, breaks_c10, breaks_c13, breaks_c14, has_primary_column, has_wide_to, holds_lookup, is_placed_by_from, is_placed_otherwise, is_table_placed_otherwise, is_wide, is_wide_column, leaves_null, lists_lookup, owns_lookup, times_served};

use crate::column_vindexes::{is_sharded, table_at};
use crate::numbers::{is_among, is_at, is_place};
use crate::table_rules::are_columns;
use vl_catalog::{Catalog, Column, Lookup, Primary, Table};
use vl_values::col_type::ColType;

fn is_wide(ty: ColType) -> bool
    ensures { result ≡ is_wide ty }
{
    match ty {
        ColType::VarBinary(n) => n >= 16,
        ColType::BigInt | ColType::BigUint | ColType::Int | ColType::Uint32 => false,
        ColType::VarChar(_) => false,
    }
}

fn is_wide_column(columns: &[Column], number: usize) -> bool
    ensures { result ≡ is_wide_column columns.now number }
{
    match columns.get(number) {
        Some(column) => is_wide(column.ty),
        None => false,
    }
}

fn has_wide_to(columns: &[Column], lookup: &Lookup) -> bool
    ensures { result ≡ has_wide_to columns.now lookup.now }
{
    match lookup.to {
        Some(to) => is_wide_column(columns, to) && !is_among(lookup.from.as_slice(), to),
        None => false,
    }
}

// Whether each column besides the `from` columns and `to` may be NULL.
fn leaves_null(columns: &[Column], lookup: &Lookup) -> bool
    ensures { result ≡ leaves_null columns.now lookup.now }
{
    columns.iter().enumerate().all(|(number, column)| {
        is_among(lookup.from.as_slice(), number) || is_place(lookup.to, number) || column.nullable
    })
}

fn holds_lookup(lookup: &Lookup, table: &Table) -> bool
    ensures { result ≡ holds_lookup lookup.now table.now }
{
    let columns = table.columns.as_slice();
    are_columns(columns, lookup.from.as_slice())
        && has_wide_to(columns, lookup)
        && table.pk.as_slice() == lookup.from.as_slice()
        && leaves_null(columns, lookup)
}

// C6.
pub(crate) fn breaks_c6(catalog: &Catalog, lookup: &Lookup) -> bool
    ensures { result ≡ breaks_c6 catalog.now lookup.now }
{
    match table_at(catalog, lookup.table) {
        Some(table) => !holds_lookup(lookup, table),
        None => true,
    }
}

fn lists_lookup(table: &Table, number: usize) -> bool
    ensures { result ≡ lists_lookup number table.now }
{
    table
        .lookups
        .as_slice()
        .iter()
        .any(|other| *other as usize == number)
}

pub(crate) fn any_lists(tables: &[Table], number: usize) -> bool
    ensures { result ≡ list_any (lists_lookup number) tables.now }
{
    tables.iter().any(|table| lists_lookup(table, number))
}

// C8, of the lookup of this number, which the table at this place lists.
pub(crate) fn breaks_c8(catalog: &Catalog, place: usize, number: usize, lookup: &Lookup) -> bool
    requires { place < length catalog.now.tables }
    ensures { result ≡ breaks_c8 catalog.now place number lookup.now }
{
    let (_, behind) = catalog.tables.as_slice().split_at(place + 1);
    !is_at(lookup.owner, place) || any_lists(behind, number)
}

fn is_placed_by_from(lookup: &Lookup, table: &Table) -> bool
    ensures { result ≡ is_placed_by_from lookup.now table.now }
{
    if table.column_vindexes.len() != 1 {
        return false;
    }
    match (table.primary, lookup.from.as_slice().first()) {
        (Some(primary), Some(first)) => *first == primary.column,
        _ => false,
    }
}

fn is_placed_otherwise(catalog: &Catalog, lookup: &Lookup, table: &Table) -> bool
    ensures { result ≡ is_placed_otherwise catalog.now lookup.now table.now }
{
    is_sharded(catalog, table)
        && table.column_vindexes.len() > 0
        && !is_placed_by_from(lookup, table)
}

fn owns_lookup(catalog: &Catalog, place: usize) -> bool
    ensures { result ≡ owns_lookup catalog.now place }
{
    catalog
        .lookups
        .as_slice()
        .iter()
        .any(|other| is_at(other.owner, place))
}

fn is_table_placed_otherwise(catalog: &Catalog, lookup: &Lookup) -> bool
    ensures { result ≡ is_table_placed_otherwise catalog.now lookup.now }
{
    match table_at(catalog, lookup.table) {
        Some(table) => is_placed_otherwise(catalog, lookup, table),
        None => false,
    }
}

// C9.
pub(crate) fn breaks_c9(catalog: &Catalog, lookup: &Lookup) -> bool
    ensures { result ≡ breaks_c9 catalog.now lookup.now }
{
    if is_table_placed_otherwise(catalog, lookup) {
        return true;
    }
    match lookup.table {
        Some(table) => owns_lookup(catalog, table as usize),
        None => false,
    }
}

// C10.
pub(crate) fn breaks_c10(lookup: &Lookup) -> bool
    ensures { result ≡ breaks_c10 lookup.now }
{
    lookup.write_only
}

fn times_served(catalog: &Catalog, place: usize) -> usize
    ensures { result ≡ times_served catalog.now place }
{
    catalog
        .lookups
        .as_slice()
        .iter()
        .filter(|lookup| is_at(lookup.table, place))
        .count()
}

fn times_listed(table: &Table, number: usize) -> usize
    ensures { result ≡ count_by (λ m. m == number) table.now.lookups }
{
    table
        .lookups
        .as_slice()
        .iter()
        .filter(|other| **other as usize == number)
        .count()
}

// C13.
pub(crate) fn breaks_c13(catalog: &Catalog, listing: &Table, number: usize, lookup: &Lookup) -> bool
    ensures { result ≡ breaks_c13 catalog.now listing.now number lookup.now }
{
    if times_listed(listing, number) > 1 {
        return true;
    }
    match lookup.table {
        Some(table) => times_served(catalog, table as usize) > 1,
        None => false,
    }
}

fn has_primary_column(table: &Table) -> bool
    ensures { result ≡ has_primary_column table.now }
{
    match table.primary {
        Some(primary) => primary.column < table.columns.len(),
        None => false,
    }
}

// C14.
pub(crate) fn breaks_c14(catalog: &Catalog, lookup: &Lookup) -> bool
    ensures { result ≡ breaks_c14 catalog.now lookup.now }
{
    match table_at(catalog, lookup.owner) {
        Some(owner) => !has_primary_column(owner),
        None => true,
    }
}
