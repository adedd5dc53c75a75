ghost use Rattle.std.specs.Prelude.{◌≡◌, ◌≤◌, ◌∷◌, ◌^◌, [], length, slice_get, IfOk, IfErr, Some, None};
ghost use Rattle.vl_values.specs.declared.cause.Cause.TheVariants.{UnknownTable};
ghost use Rattle.vl_model.specs.Columns.{is_in, table_named};
ghost use Rattle.vl_model.specs.Refusals.{IsFirst};

use std::alloc::Global;
use vl_catalog::{Catalog, Table};
use vl_sql::table::TableName;
use vl_values::TableNo;
use vl_values::bytes::Bytes;
use vl_values::cause::Cause;

// Whether the keyspace that stands before a table's name, if one does, is the table's.
fn is_in(catalog: &Catalog, keyspace: &Option<Bytes>, table: &Table) -> bool
    ensures { result ≡ is_in catalog.now keyspace.now table.now }
{
    match keyspace {
        None => true,
        Some(name) => match catalog.keyspaces.as_slice().get(table.keyspace) {
            Some(keyspace) => keyspace.name.as_slice() == name.as_slice(),
            None => false,
        },
    }
}

fn table_named(catalog: &Catalog, name: &TableName) -> Option<usize>
    ensures { result ≡ table_named catalog.now name.now }
{
    catalog.tables.as_slice().iter().position(|table| {
        table.name.as_slice() == name.name.as_slice() && is_in(catalog, &name.keyspace, table)
    })
}

fn unknown_table(alloc: Global, name: &TableName) -> Cause
    ensures { IsFirst result (UnknownTable name.now.name ∷ []) }
{
    match name.name.copy(alloc) {
        Ok(name) => Cause::UnknownTable { name },
        Err(_) => Cause::OutOfMemory,
    }
}

/// The table of a statement, with its number.
pub(crate) fn table_of<'a>(
    alloc: Global,
    catalog: &'a Catalog,
    name: &TableName,
) -> Result<(TableNo, &'a Table), Cause>
    requires { length catalog.now.tables ≤ 256 }
    ensures unknown { IfErr result (λ cause. (table_named catalog.now name.now ≡ None) × IsFirst cause (UnknownTable name.now.name ∷ [])) }
    ensures found { IfOk result (λ found. (table_named catalog.now name.now ≡ Some found.0) × (slice_get catalog.now.tables found.0 ≡ Some found.1.now)) }
{
    let tables = catalog.tables.as_slice();
    match table_named(catalog, name) {
        Some(number) => Ok((number as TableNo, &tables[number])),
        None => Err(unknown_table(alloc, name)),
    }
}
