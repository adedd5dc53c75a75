ghost use Rattle.std.specs.Prelude.{◌≡◌, false, ◌&&◌, ◌||◌, ◌==◌, not, slice_get};
ghost use Rattle.std.specs.List.{list_any};
ghost use Rattle.std.specs.Option.{option_map_or};
ghost use Rattle.vl_catalog.specs.Build.{table_at};
ghost use Rattle.vl_model.specs.Columns.{is_mapped_by, is_numbered, is_numeric, is_on, lookups_on, needs_value};

use crate::unsupported::is_key;
use vl_catalog::{Catalog, Lookup, LookupNo, Primary, Table, Vindex};

/// What the vindexes of a column ask of its values.
#[derive(Clone, Copy)]
pub(crate) struct Asks {
    /// The primary key or a lookup has no place for NULL.
    pub needs_value: bool,
    /// `numeric` has no place for a negative number.
    pub numbered: bool,
}

fn is_numeric(vindex: Vindex) -> bool
    ensures { result ≡ is_numeric vindex }
{
    match vindex {
        Vindex::Numeric => true,
        Vindex::BinaryMd5 => false,
    }
}

fn is_on(lookup: &Lookup, number: usize) -> bool
    ensures { result ≡ is_on number lookup.now }
{
    match lookup.column {
        Some(column) => column == number,
        None => false,
    }
}

// Whether `numeric` is the primary vindex.
fn is_mapped(primary: Option<Primary>) -> bool
    ensures { result ≡ option_map_or (λ primary. is_numeric primary.vindex) primary false }
{
    match primary {
        Some(primary) => is_numeric(primary.vindex),
        None => false,
    }
}

// Whether `numeric` maps the entries of the lookup.
fn has_numbers(catalog: &Catalog, lookup: &Lookup) -> bool
    ensures { result ≡ is_mapped_by (table_at catalog.now.tables lookup.now.table) }
{
    match lookup.table {
        None => false,
        Some(table) => match catalog.tables.as_slice().get(table as usize) {
            Some(table) => is_mapped(table.primary),
            None => false,
        },
    }
}

// Whether `numeric` maps the column itself.
fn is_column_of(primary: Option<Primary>, number: usize) -> bool
    ensures { result ≡ option_map_or (λ primary. (primary.column == number) && is_numeric primary.vindex) primary false }
{
    match primary {
        Some(primary) => primary.column == number && is_numeric(primary.vindex),
        None => false,
    }
}

fn needs_at(catalog: &Catalog, number: usize, lookup: LookupNo) -> bool
    ensures { result ≡ option_map_or (λ lookup. is_on number lookup && not lookup.ignore_nulls) (slice_get catalog.now.lookups lookup) false }
{
    match catalog.lookups.as_slice().get(lookup as usize) {
        Some(lookup) => is_on(lookup, number) && !lookup.ignore_nulls,
        None => false,
    }
}

fn numbered_at(catalog: &Catalog, number: usize, lookup: LookupNo) -> bool
    ensures { result ≡ option_map_or (λ lookup. is_on number lookup && is_mapped_by (table_at catalog.now.tables lookup.table)) (slice_get catalog.now.lookups lookup) false }
{
    match catalog.lookups.as_slice().get(lookup as usize) {
        Some(lookup) => is_on(lookup, number) && has_numbers(catalog, lookup),
        None => false,
    }
}

fn any_needs(catalog: &Catalog, lookups: &[LookupNo], number: usize) -> bool
    ensures { result ≡ list_any (λ l. option_map_or (λ lookup. is_on number lookup && not lookup.ignore_nulls) (slice_get catalog.now.lookups l) false) lookups.now }
{
    lookups
        .iter()
        .any(|lookup| needs_at(catalog, number, *lookup))
}

fn lookup_needs(catalog: &Catalog, table: &Table, number: usize) -> bool
    ensures { result ≡ list_any (λ lookup. not lookup.ignore_nulls) (lookups_on catalog.now table.now number) }
{
    any_needs(catalog, table.lookups.as_slice(), number)
}

fn needs_value(catalog: &Catalog, table: &Table, number: usize) -> bool
    ensures { result ≡ needs_value catalog.now table.now number }
{
    let in_key = is_key(table.pk.as_slice(), number);
    in_key || lookup_needs(catalog, table, number)
}

fn any_numbered(catalog: &Catalog, lookups: &[LookupNo], number: usize) -> bool
    ensures { result ≡ list_any (λ l. option_map_or (λ lookup. is_on number lookup && is_mapped_by (table_at catalog.now.tables lookup.table)) (slice_get catalog.now.lookups l) false) lookups.now }
{
    lookups
        .iter()
        .any(|lookup| numbered_at(catalog, number, *lookup))
}

fn has_numbered(catalog: &Catalog, table: &Table, number: usize) -> bool
    ensures { result ≡ list_any (λ lookup. is_mapped_by (table_at catalog.now.tables lookup.table)) (lookups_on catalog.now table.now number) }
{
    any_numbered(catalog, table.lookups.as_slice(), number)
}

fn is_numbered(catalog: &Catalog, table: &Table, number: usize) -> bool
    ensures { result ≡ is_numbered catalog.now table.now number }
{
    let mapped = is_column_of(table.primary, number);
    mapped || has_numbered(catalog, table, number)
}

/// What is asked of the values of a table's column.
pub(crate) fn asks_of(catalog: &Catalog, table: &Table, number: usize) -> Asks
    ensures needs_value { result.needs_value ≡ needs_value catalog.now table.now number }
    ensures numbered { result.numbered ≡ is_numbered catalog.now table.now number }
{
    Asks {
        needs_value: needs_value(catalog, table, number),
        numbered: is_numbered(catalog, table, number),
    }
}
