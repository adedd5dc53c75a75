ghost use Rattle.std.specs.Prelude.{◌≡◌, ◌==◌, ◌&&◌, [], false, slice_get, IfErr, OnOk};
ghost use Rattle.std.specs.Option.{option_map_or};
ghost use Rattle.std.specs.Str.{bytes_eq};
ghost use Rattle.std.specs.List.{list_any};
ghost use Rattle.vl_values.specs.declared.unsupported.Unsupported.TheVariants.{ChangeOfKeyColumn, CountWithMore, LockOnLookupTable, WriteToLookupTable};
ghost use Rattle.vl_model.specs.Entries.{is_lookup_table, is_served_by};
ghost use Rattle.vl_model.specs.Refusals.{IsFirst, has_more, is_count, is_key_column, sets_a_key_column, told_if};

use vl_catalog::{Catalog, Column, Table, TableNo};
use vl_sql::assignment::Assignment;
use vl_sql::order::Order;
use vl_sql::what::What;
use vl_values::cause::Cause;
use vl_values::unsupported::Unsupported;

// Refuses the statement as not supported where this holds.
fn told_if(holds: bool, what: Unsupported) -> Result<(), Cause>
    ensures refused { IfErr result (λ cause. IsFirst cause (told_if holds what)) }
    ensures supported { OnOk result (told_if holds what ≡ []) }
{
    if holds {
        return Err(Cause::NotSupported { what });
    }
    Ok(())
}

fn is_served_by(table: TableNo, served: Option<TableNo>) -> bool
    ensures { result ≡ is_served_by table served }
{
    match served {
        None => false,
        Some(other) => other == table,
    }
}

// Whether the table serves a lookup.
fn is_lookup_table(catalog: &Catalog, table: TableNo) -> bool
    ensures { result ≡ is_lookup_table catalog.now table }
{
    let lookups = catalog.lookups.as_slice();
    lookups
        .iter()
        .any(|lookup| is_served_by(table, lookup.table))
}

/// Whether a column of this number is one of these.
pub(crate) fn is_key(key: &[usize], number: usize) -> bool
    ensures { result ≡ list_any (λ k. k == number) key.now }
{
    key.iter().any(|column| *column == number)
}

fn is_named(columns: &[Column], number: usize, name: &[u8]) -> bool
    ensures { result ≡ option_map_or (λ column. bytes_eq column.name name.now) (slice_get columns.now number) false }
{
    match columns.get(number) {
        Some(column) => column.name.as_slice() == name,
        None => false,
    }
}

fn any_named(columns: &[Column], numbers: &[usize], name: &[u8]) -> bool
    ensures { result ≡ list_any (λ k. option_map_or (λ column. bytes_eq column.name name.now) (slice_get columns.now k) false) numbers.now }
{
    numbers
        .iter()
        .any(|number| is_named(columns, *number, name))
}

fn is_key_column(table: &Table, name: &[u8]) -> bool
    ensures { result ≡ is_key_column table.now name.now }
{
    any_named(table.columns.as_slice(), table.pk.as_slice(), name)
}

// Whether SET names a column of the primary key.
fn sets_a_key_column(table: &Table, assignments: &[Assignment]) -> bool
    ensures { result ≡ sets_a_key_column table.now assignments.now }
{
    assignments.iter().any(|assignment| is_key_column(table, assignment.column.as_slice()))
}

// Whether the rows are counted.
fn is_count(what: &What) -> bool
    ensures { result ≡ is_count what.now }
{
    match what {
        What::Count => true,
        What::All | What::Columns(_) => false,
    }
}

// Whether ORDER BY, LIMIT or FOR UPDATE is said.
fn has_more(orders: &[Order], limit: Option<u64>, locking: bool) -> bool
    ensures { result ≡ has_more orders.now limit locking }
{
    0 < orders.len() || limit.is_some() || locking
}

/// Looks whether the table may be written.
pub(crate) fn written(catalog: &Catalog, table: TableNo) -> Result<(), Cause>
    ensures refused { IfErr result (λ cause. IsFirst cause (told_if (is_lookup_table catalog.now table) WriteToLookupTable)) }
    ensures supported { OnOk result (told_if (is_lookup_table catalog.now table) WriteToLookupTable ≡ []) }
{
    told_if(
        is_lookup_table(catalog, table),
        Unsupported::WriteToLookupTable,
    )
}

/// Looks whether the rows that are read may be locked, if they are.
pub(crate) fn locked(catalog: &Catalog, table: TableNo, locking: bool) -> Result<(), Cause>
    ensures refused { IfErr result (λ cause. IsFirst cause (told_if (locking && is_lookup_table catalog.now table) LockOnLookupTable)) }
    ensures supported { OnOk result (told_if (locking && is_lookup_table catalog.now table) LockOnLookupTable ≡ []) }
{
    let holds = locking && is_lookup_table(catalog, table);
    told_if(holds, Unsupported::LockOnLookupTable)
}

/// Looks whether SET leaves the primary key as it is.
pub(crate) fn keys_kept(table: &Table, assignments: &[Assignment]) -> Result<(), Cause>
    ensures refused { IfErr result (λ cause. IsFirst cause (told_if (sets_a_key_column table.now assignments.now) ChangeOfKeyColumn)) }
    ensures supported { OnOk result (told_if (sets_a_key_column table.now assignments.now) ChangeOfKeyColumn ≡ []) }
{
    told_if(
        sets_a_key_column(table, assignments),
        Unsupported::ChangeOfKeyColumn,
    )
}

/// Looks whether `COUNT(*)`, if it is said, stands alone.
pub(crate) fn counted_alone(
    what: &What,
    orders: &[Order],
    limit: Option<u64>,
    locking: bool,
) -> Result<(), Cause>
    ensures refused { IfErr result (λ cause. IsFirst cause (told_if (is_count what.now && has_more orders.now limit locking) CountWithMore)) }
    ensures supported { OnOk result (told_if (is_count what.now && has_more orders.now limit locking) CountWithMore ≡ []) }
{
    let holds = is_count(what) && has_more(orders, limit, locking);
    told_if(holds, Unsupported::CountWithMore)
}
