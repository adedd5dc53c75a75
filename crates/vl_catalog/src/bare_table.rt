ghost use Rattle.std.specs.Prelude.{◌≡◌, ◌↔◌, IsTrue, IfOk, OnOk, ◌++◌, map, filter, find, not, ℕ, Option, Some};
ghost use Rattle.std.specs.Option.{option_copied, option_map};
ghost use Rattle.std.specs.Str.{bytes_eq};
ghost use Rattle.vl_catalog.specs.Build.{column_vindexes_of, defined_table, is_defined, kind_of, primary_by, primary_of, tables_from, tables_of, undefined_table, vschema_of};

use crate::column::Column;
use crate::column_vindex::ColumnVindex;
use crate::columns::{column_numbers, one_column};
use crate::keyspace_parts::KeyspaceParts;
use crate::keyspace_vschema::KeyspaceVschema;
use crate::primary::Primary;
use crate::table::Table;
use crate::table_def::TableDef;
use crate::table_vschema::TableVschema;
use crate::vindex_def::{VindexDef, VindexKind};
use std::alloc::{AllocError, Global};
use vl_values::items::Items;
use vl_values::try_copy::TryCopy;

fn vschema_of<'a>(tables: &'a [TableVschema], name: &[u8]) -> Option<&'a TableVschema>
    ensures { option_copied result ≡ vschema_of tables.now name.now }
{
    tables.iter().find(|table| table.name.as_slice() == name)
}

fn kind_of<'a>(vindexes: &'a [VindexDef], name: &[u8]) -> Option<&'a VindexDef>
    ensures { option_copied result ≡ find (λ vindex. bytes_eq vindex.name name.now) vindexes.now }
{
    vindexes
        .iter()
        .find(|vindex| vindex.name.as_slice() == name)
}

fn primary_of_kind(kind: &VindexKind, column: Option<usize>) -> Option<Primary>
    ensures { result ≡ primary_by (Some kind.now) column }
{
    match kind {
        VindexKind::Primary(vindex) => match column {
            Some(column) => Some(Primary {
                column,
                vindex: *vindex,
            }),
            None => None,
        },
        VindexKind::Lookup(_) => None,
    }
}

fn primary_by(vindex: Option<&VindexDef>, column: Option<usize>) -> Option<Primary>
    ensures { result ≡ primary_by (option_map (λ v. v.kind) (option_copied vindex.entry)) column }
{
    match vindex {
        Some(vindex) => primary_of_kind(&vindex.kind, column),
        None => None,
    }
}

// The primary vindex that the first column vindex gives.
fn primary_of(
    vindexes: &[VindexDef],
    columns: &[Column],
    column_vindexes: &[ColumnVindex],
) -> Option<Primary>
    ensures { result ≡ primary_of vindexes.now columns.now column_vindexes.now }
{
    match column_vindexes.first() {
        Some(first) => primary_by(
            kind_of(vindexes, first.vindex.as_slice()),
            one_column(columns, first.columns.as_slice()),
        ),
        None => None,
    }
}

// The column vindexes of a table of the VSchema, none where it doesn't stand there.
fn column_vindexes_of(
    alloc: Global,
    table: Option<&TableVschema>,
) -> Result<Items<ColumnVindex>, AllocError>
    ensures { IfOk result (λ vindexes. vindexes ≡ column_vindexes_of (option_copied table.entry)) }
{
    match table {
        None => Ok(Items::new(alloc)),
        Some(table) => table.column_vindexes.try_copy(alloc),
    }
}

// A table of the schema file, with what the VSchema says of it.
fn defined_table(
    alloc: Global,
    keyspace: usize,
    vschema: &KeyspaceVschema,
    def: &TableDef,
) -> Result<Table, AllocError>
    ensures { IfOk result (λ table. table ≡ defined_table keyspace vschema.now def.now) }
{
    let listed = vschema_of(vschema.tables.as_slice(), def.name.as_slice());
    let in_vschema = listed.is_some();
    let column_vindexes = column_vindexes_of(alloc, listed)?;
    let primary = primary_of(
        vschema.vindexes.as_slice(),
        def.columns.as_slice(),
        column_vindexes.as_slice(),
    );
    let key = column_numbers(alloc, def.columns.as_slice(), def.key.as_slice())?;
    Ok(Table {
        name: def.name.copy(alloc)?,
        keyspace,
        in_schema: true,
        in_vschema,
        columns: def.columns.try_copy(alloc)?,
        pk: Items::from_vec(key),
        primary,
        column_vindexes,
        lookups: Items::new(alloc),
    })
}

// A table that stands in the VSchema alone.
fn undefined_table(
    alloc: Global,
    keyspace: usize,
    table: &TableVschema,
) -> Result<Table, AllocError>
    ensures { IfOk result (λ made. made ≡ undefined_table keyspace table.now) }
{
    Ok(Table {
        name: table.name.copy(alloc)?,
        keyspace,
        in_schema: false,
        in_vschema: true,
        columns: Items::new(alloc),
        pk: Items::new(alloc),
        primary: None,
        column_vindexes: table.column_vindexes.try_copy(alloc)?,
        lookups: Items::new(alloc),
    })
}

fn is_defined(defs: &[TableDef], name: &[u8]) -> bool
    ensures { result ≡ is_defined defs.now name.now }
{
    defs.iter().any(|def| def.name.as_slice() == name)
}

fn add_defined(
    alloc: Global,
    tables: &mut Vec<Table>,
    keyspace: usize,
    vschema: &KeyspaceVschema,
    defs: &[TableDef],
) -> Result<(), AllocError>
    ensures { OnOk result (tables.new.items ≡ tables.old.items ++ map (defined_table keyspace vschema.now) defs.now) }
{
    for def in defs {
        tables.push(defined_table(alloc, keyspace, vschema, def)?)?;
    }
    Ok(())
}

fn add_undefined(
    alloc: Global,
    tables: &mut Vec<Table>,
    keyspace: usize,
    defs: &[TableDef],
    listed: &[TableVschema],
) -> Result<(), AllocError>
    ensures { OnOk result (tables.new.items ≡ tables.old.items ++ map (undefined_table keyspace) (filter (λ table. not (is_defined defs.now table.name)) listed.now)) }
{
    for table in listed {
        if !is_defined(defs, table.name.as_slice()) {
            tables.push(undefined_table(alloc, keyspace, table)?)?;
        }
    }
    Ok(())
}

fn add_tables(
    alloc: Global,
    tables: &mut Vec<Table>,
    keyspace: usize,
    parts: &KeyspaceParts,
) -> Result<(), AllocError>
    ensures { OnOk result (tables.new.items ≡ tables.old.items ++ tables_of keyspace parts.now) }
{
    let defs = parts.tables.as_slice();
    add_defined(alloc, tables, keyspace, &parts.vschema, defs)?;
    add_undefined(
        alloc,
        tables,
        keyspace,
        defs,
        parts.vschema.tables.as_slice(),
    )
}

// The tables of the keyspaces, but for the lookups that they list.
pub(crate) fn bare_tables(alloc: Global, parts: &[KeyspaceParts]) -> Result<Vec<Table>, AllocError>
    ensures { IfOk result (λ tables. tables.items ≡ tables_from 0 parts.now) }
{
    let mut tables = Vec::new(alloc);
    for (keyspace, part) in parts.iter().enumerate() {
        add_tables(alloc, &mut tables, keyspace, part)?;
    }
    Ok(tables)
}
