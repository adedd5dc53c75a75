ghost use Rattle.std.specs.Prelude.{◌≡◌, ◌∷◌, ◌==◌, ◌||◌, ◌&&◌, not, Option, Some, length, filter};
ghost use Rattle.std.specs.Cmp.Lexicographic.{pointwise};
ghost use Rattle.std.specs.Option.{option_copied};
ghost use Rattle.vl_catalog.specs.Build.{column_number, is_key_rest, meant_columns, other_keys, table_at};
ghost use Rattle.vl_rules.specs.ColumnVindexes.{first_has_one, has_one_column, is_named, is_sharded, lookup_named, meant_by, names_column};

use crate::numbers::is_place;
use vl_catalog::{Catalog, Column, ColumnVindex, Lookup, Table, TableNo};
use vl_values::bytes::Bytes;

pub(crate) fn is_sharded(catalog: &Catalog, table: &Table) -> bool
    ensures { result ≡ is_sharded catalog.now table.now }
{
    match catalog.keyspaces.as_slice().get(table.keyspace) {
        Some(keyspace) => keyspace.sharded,
        None => false,
    }
}

pub(crate) fn table_at(catalog: &Catalog, number: Option<TableNo>) -> Option<&Table>
    ensures { option_copied result ≡ table_at catalog.now.tables number }
{
    match number {
        Some(number) => catalog.tables.as_slice().get(number as usize),
        None => None,
    }
}

// The place of the column of this name.
pub(crate) fn column_number(columns: &[Column], name: &[u8]) -> Option<usize>
    ensures { result ≡ column_number columns.now name.now }
{
    columns
        .iter()
        .position(|column| column.name.as_slice() == name)
}

// Whether a column vindex of a table of this keyspace names the lookup.
pub(crate) fn is_named(keyspace: usize, vindex: &ColumnVindex, lookup: &Lookup) -> bool
    ensures { result ≡ is_named keyspace vindex.now lookup.now }
{
    lookup.keyspace == keyspace && lookup.name.as_slice() == vindex.vindex.as_slice()
}

// The lookup that a table's column vindex names, if that is one.
pub(crate) fn lookup_named<'a>(
    catalog: &'a Catalog,
    table: &Table,
    vindex: &ColumnVindex,
) -> Option<&'a Lookup>
    ensures { option_copied result ≡ lookup_named catalog.now table.now vindex.now }
{
    catalog
        .lookups
        .as_slice()
        .iter()
        .find(|lookup| is_named(table.keyspace, vindex, lookup))
}

fn names_column(columns: &[Column], name: &[u8], number: usize) -> bool
    ensures { result ≡ names_column columns.now name.now number }
{
    match column_number(columns, name) {
        Some(found) => found == number,
        None => false,
    }
}

// Whether the names are those of the key's columns other than this one, in their order.
fn are_others(columns: &[Column], key: &[usize], column: Option<usize>, names: &[Bytes]) -> bool
    ensures { result ≡ pointwise (names_column columns.now) names.now (other_keys key.now column) }
{
    let mut left = names;
    for number in key {
        if !is_place(column, *number) {
            match left {
                [name, more @ ..] => {
                    if !names_column(columns, name.as_slice(), *number) {
                        return false;
                    }
                    left = more;
                }
                [] => return false,
            }
        }
    }
    left.is_empty()
}

// Whether the names are the owner's primary key columns other than this column, in their order.
fn is_key_rest(owner: Option<&Table>, column: &[u8], rest: &[Bytes]) -> bool
    ensures { result ≡ is_key_rest (option_copied owner.entry) column.now rest.now }
{
    match owner {
        Some(owner) => {
            let columns = owner.columns.as_slice();
            let number = column_number(columns, column);
            are_others(columns, owner.pk.as_slice(), number, rest)
        }
        None => false,
    }
}

// Whether these names mean one column, of which those behind a lookup's column may be cut off.
fn means_one(catalog: &Catalog, lookup: Option<&Lookup>, names: &[Bytes]) -> bool
    ensures { result ≡ (length (meant_by catalog.now (option_copied lookup.entry) names.now) == 1) }
{
    match lookup {
        Some(lookup) => is_cut(lookup.unique, table_at(catalog, lookup.owner), names),
        None => names.len() == 1,
    }
}

fn is_cut(unique: bool, owner: Option<&Table>, names: &[Bytes]) -> bool
    ensures { result ≡ (length (meant_columns unique (option_copied owner.entry) names.now) == 1) }
{
    match names {
        [column, rest @ ..] => {
            rest.is_empty() || (!unique && is_key_rest(owner, column.as_slice(), rest))
        }
        [] => false,
    }
}

pub(crate) fn has_one_column(catalog: &Catalog, table: &Table, vindex: &ColumnVindex) -> bool
    ensures { result ≡ has_one_column catalog.now table.now vindex.now }
{
    let lookup = lookup_named(catalog, table, vindex);
    means_one(catalog, lookup, vindex.columns.as_slice())
}

// Whether the table has a first column vindex, with exactly one column.
pub(crate) fn first_has_one(catalog: &Catalog, table: &Table) -> bool
    ensures { result ≡ first_has_one catalog.now table.now }
{
    match table.column_vindexes.as_slice().first() {
        Some(first) => has_one_column(catalog, table, first),
        None => false,
    }
}
