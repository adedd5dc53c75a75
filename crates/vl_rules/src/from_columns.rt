ghost use Rattle.std.specs.Prelude.{◌≡◌, Option, Some, find, option_and_then, slice_get};
ghost use Rattle.std.specs.Cmp.Lexicographic.{pointwise};
ghost use Rattle.std.specs.Option.{option_copied, option_map_or};
ghost use Rattle.vl_catalog.specs.Build.{columns_listed, column_number, has_vindex, other_keys};
ghost use Rattle.vl_rules.specs.Lookups.{are_from_columns, breaks_c7, indexed_columns, is_listed_off, is_off_owner, is_same_column, is_same_type, owner_column};

use crate::column_vindexes::{column_number, has_one_column, table_at};
use crate::numbers::is_at;
use vl_catalog::{Catalog, Column, ColumnVindex, Lookup, Table};
use vl_values::bytes::Bytes;
use vl_values::col_type::ColType;

fn is_same_type(a: ColType, b: ColType) -> bool
    ensures { result ≡ is_same_type a b }
{
    match (a, b) {
        (ColType::BigInt, ColType::BigInt) => true,
        (ColType::BigUint, ColType::BigUint) => true,
        (ColType::Int, ColType::Int) => true,
        (ColType::Uint32, ColType::Uint32) => true,
        (ColType::VarChar(m), ColType::VarChar(n)) => m == n,
        (ColType::VarBinary(m), ColType::VarBinary(n)) => m == n,
        _ => false,
    }
}

// Whether the columns of these numbers exist, and have one type.
fn is_same_column(left: &[Column], right: &[Column], m: usize, n: usize) -> bool
    ensures { result ≡ is_same_column left.now right.now m n }
{
    match (left.get(m), right.get(n)) {
        (Some(a), Some(b)) => is_same_type(a.ty, b.ty),
        _ => false,
    }
}

// Whether the columns have the types of the owner's primary key columns other than this one, in their
// order.
fn are_other_keys(columns: &[Column], numbers: &[usize], owner: &Table, column: usize) -> bool
    ensures { result ≡ pointwise (is_same_column columns.now owner.now.columns) numbers.now (other_keys owner.now.pk (Some column)) }
{
    let mut left = numbers;
    for other in owner.pk.as_slice() {
        if *other != column {
            match left {
                [number, more @ ..] => {
                    if !is_same_column(columns, owner.columns.as_slice(), *number, *other) {
                        return false;
                    }
                    left = more;
                }
                [] => return false,
            }
        }
    }
    left.is_empty()
}

// Whether the `from` columns hold the owner's column and, unless the lookup is unique, then the other
// columns of its primary key.
fn are_from_columns(lookup: &Lookup, table: &Table, owner: &Table, column: usize) -> bool
    ensures { result ≡ are_from_columns lookup.now table.now owner.now column }
{
    let columns = table.columns.as_slice();
    match lookup.from.as_slice() {
        [first, rest @ ..] => {
            if !is_same_column(columns, owner.columns.as_slice(), *first, column) {
                return false;
            }
            if lookup.unique {
                rest.is_empty()
            } else {
                are_other_keys(columns, rest, owner, column)
            }
        }
        [] => false,
    }
}

fn vindex_listed<'a>(listing: &'a Table, name: &[u8]) -> Option<&'a ColumnVindex>
    ensures { option_copied result ≡ find (has_vindex name.now) listing.now.column_vindexes }
{
    listing
        .column_vindexes
        .as_slice()
        .iter()
        .find(|vindex| vindex.vindex.as_slice() == name)
}

fn columns_listed<'a>(listing: &'a Table, name: &[u8]) -> &'a [Bytes]
    ensures { result.now ≡ columns_listed listing.now.column_vindexes name.now }
{
    match vindex_listed(listing, name) {
        Some(vindex) => vindex.columns.as_slice(),
        None => &[],
    }
}

// The owner's column: that of the lookup where the owner lists it, else the one of the name that is
// listed.
fn owner_column(place: usize, listing: &Table, lookup: &Lookup, owner: &Table) -> Option<usize>
    ensures { result ≡ owner_column place listing.now lookup.now owner.now }
{
    if is_at(lookup.owner, place) {
        return lookup.column;
    }
    match columns_listed(listing, lookup.name.as_slice()).first() {
        Some(name) => column_number(owner.columns.as_slice(), name.as_slice()),
        None => None,
    }
}

fn is_off_owner(
    catalog: &Catalog,
    place: usize,
    listing: &Table,
    lookup: &Lookup,
    owner: &Table,
) -> bool
    ensures { result ≡ is_off_owner catalog.now place listing.now lookup.now owner.now }
{
    match table_at(catalog, lookup.table) {
        Some(table) => match owner_column(place, listing, lookup, owner) {
            Some(column) => !are_from_columns(lookup, table, owner, column),
            None => true,
        },
        None => true,
    }
}

// Whether the column vindex by which the table lists the lookup breaks C12.
fn is_listed_off(catalog: &Catalog, listing: &Table, lookup: &Lookup) -> bool
    ensures { result ≡ is_listed_off catalog.now listing.now lookup.now }
{
    match vindex_listed(listing, lookup.name.as_slice()) {
        Some(vindex) => !has_one_column(catalog, listing, vindex),
        None => false,
    }
}

// C7, of a lookup that the table at this place lists.
pub(crate) fn breaks_c7(catalog: &Catalog, place: usize, listing: &Table, lookup: &Lookup) -> bool
    ensures { result ≡ breaks_c7 catalog.now place listing.now lookup.now }
{
    if is_listed_off(catalog, listing, lookup) {
        return false;
    }
    match table_at(catalog, lookup.owner) {
        Some(owner) => is_off_owner(catalog, place, listing, lookup, owner),
        None => false,
    }
}
