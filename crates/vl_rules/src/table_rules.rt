ghost use Rattle.std.specs.Prelude.{◌≡◌, ◌<◌, ◌&&◌, not, is_none, length, slice_get};
ghost use Rattle.std.specs.Cmp.Lexicographic.{pointwise};
ghost use Rattle.vl_rules.specs.Tables.{are_columns, are_in_order, breaks_c1, breaks_c2, breaks_c3, breaks_c4, breaks_c5, breaks_c12, has_numeric_text, has_vindex, is_lookup_of, is_number_column, is_number_type, is_numeric, primary_in_key, shards_of, stands_in_one};

use crate::column_vindexes::{first_has_one, has_one_column, is_named, is_sharded, lookup_named};
use crate::numbers::{are_below, is_among};
use vl_catalog::{Catalog, Column, ColumnVindex, LookupNo, Primary, Table, Vindex};
use vl_values::col_type::ColType;

// C1: the name of the table at this place stands again behind it.
pub(crate) fn breaks_c1(catalog: &Catalog, place: usize, table: &Table) -> bool
    requires { place < length catalog.now.tables }
    ensures { result ≡ breaks_c1 catalog.now place table.now }
{
    let (_, behind) = catalog.tables.as_slice().split_at(place + 1);
    behind
        .iter()
        .any(|other| other.name.as_slice() == table.name.as_slice())
}

// Whether there are numbers, and each is that of a column.
pub(crate) fn are_columns(columns: &[Column], numbers: &[usize]) -> bool
    ensures { result ≡ are_columns columns.now numbers.now }
{
    numbers.len() > 0 && are_below(numbers, columns.len())
}

// Whether the table stands in only one of VSchema and schema where it has to stand in both.
fn stands_in_one(catalog: &Catalog, table: &Table) -> bool
    ensures { result ≡ stands_in_one catalog.now table.now }
{
    !table.in_schema || (is_sharded(catalog, table) && !table.in_vschema)
}

// C2.
pub(crate) fn breaks_c2(catalog: &Catalog, table: &Table) -> bool
    ensures { result ≡ breaks_c2 catalog.now table.now }
{
    !are_columns(table.columns.as_slice(), table.pk.as_slice()) || stands_in_one(catalog, table)
}

fn shards_of(catalog: &Catalog, table: &Table) -> usize
    ensures { result ≡ shards_of catalog.now table.now }
{
    match catalog.rings.as_slice().get(table.keyspace) {
        Some(ring) => ring.ranges().len(),
        None => 0,
    }
}

// Whether the table lists the lookup of this number by the column vindex.
fn is_lookup_of(catalog: &Catalog, table: &Table, vindex: &ColumnVindex, number: LookupNo) -> bool
    ensures { result ≡ is_lookup_of catalog.now table.now vindex.now number }
{
    match catalog.lookups.as_slice().get(number as usize) {
        Some(lookup) => is_named(table.keyspace, vindex, lookup),
        None => false,
    }
}

// Whether the column vindexes are the table's lookups, one by one.
fn are_lookups(catalog: &Catalog, table: &Table, vindexes: &[ColumnVindex]) -> bool
    ensures { result ≡ pointwise (is_lookup_of catalog.now table.now) vindexes.now table.now.lookups }
{
    let mut left = table.lookups.as_slice();
    for vindex in vindexes {
        match left {
            [number, more @ ..] => {
                if !is_lookup_of(catalog, table, vindex, *number) {
                    return false;
                }
                left = more;
            }
            [] => return false,
        }
    }
    left.is_empty()
}

// Whether the first column vindex is no lookup, and the later ones are the table's lookups.
fn are_in_order(catalog: &Catalog, table: &Table, vindexes: &[ColumnVindex]) -> bool
    ensures { result ≡ are_in_order catalog.now table.now vindexes.now }
{
    match vindexes {
        [first, later @ ..] => {
            lookup_named(catalog, table, first).is_none() && are_lookups(catalog, table, later)
        }
        [] => false,
    }
}

fn has_vindex(table: &Table) -> bool
    ensures { result ≡ has_vindex table.now }
{
    table.column_vindexes.len() > 0 || table.primary.is_some() || table.lookups.len() > 0
}

// C3.
pub(crate) fn breaks_c3(catalog: &Catalog, table: &Table) -> bool
    ensures { result ≡ breaks_c3 catalog.now table.now }
{
    let shards = shards_of(catalog, table);
    if is_sharded(catalog, table) {
        !are_in_order(catalog, table, table.column_vindexes.as_slice()) || shards == 0
    } else {
        has_vindex(table) || shards != 1
    }
}

fn primary_in_key(table: &Table) -> bool
    ensures { result ≡ primary_in_key table.now }
{
    match table.primary {
        Some(primary) => is_among(table.pk.as_slice(), primary.column),
        None => false,
    }
}

// C4.
pub(crate) fn breaks_c4(catalog: &Catalog, table: &Table) -> bool
    ensures { result ≡ breaks_c4 catalog.now table.now }
{
    first_has_one(catalog, table) && !primary_in_key(table)
}

fn is_numeric(vindex: Vindex) -> bool
    ensures { result ≡ is_numeric vindex }
{
    match vindex {
        Vindex::Numeric => true,
        Vindex::BinaryMd5 => false,
    }
}

fn is_number_type(ty: ColType) -> bool
    ensures { result ≡ is_number_type ty }
{
    match ty {
        ColType::BigInt | ColType::BigUint | ColType::Int | ColType::Uint32 => true,
        ColType::VarChar(_) | ColType::VarBinary(_) => false,
    }
}

fn is_number_column(columns: &[Column], number: usize) -> bool
    ensures { result ≡ is_number_column columns.now number }
{
    match columns.get(number) {
        Some(column) => is_number_type(column.ty),
        None => false,
    }
}

fn has_numeric_text(table: &Table) -> bool
    ensures { result ≡ has_numeric_text table.now }
{
    match table.primary {
        Some(primary) => {
            is_numeric(primary.vindex)
                && !is_number_column(table.columns.as_slice(), primary.column)
        }
        None => false,
    }
}

// C5.
pub(crate) fn breaks_c5(catalog: &Catalog, table: &Table) -> bool
    ensures { result ≡ breaks_c5 catalog.now table.now }
{
    first_has_one(catalog, table) && has_numeric_text(table)
}

// C12.
pub(crate) fn breaks_c12(catalog: &Catalog, table: &Table) -> bool
    ensures { result ≡ breaks_c12 catalog.now table.now }
{
    table
        .column_vindexes
        .as_slice()
        .iter()
        .any(|vindex| !has_one_column(catalog, table, vindex))
}
