ghost use Rattle.std.specs.Prelude.{◌≡◌, ◌++◌, codes, decimal, IfOk, OnOk, Option, if◌then◌else◌, length, option_copied, []};
ghost use Rattle.std.specs.List.{flat_map};
ghost use Rattle.std.specs.Option.{option_map_or};
ghost use Rattle.vl_catalog.specs.Place.{shard_count};
ghost use Rattle.vl_rules.specs.Order.{Checked};
ghost use Rattle.vl_load.specs.Report.{column_name, count_line, entry_text, full_name, ignored_line, keyspace_name, lookup_line, lookup_text, owner_text, placement, report_of, table_at, table_line, table_text, vindex_name};

use crate::loaded::Loaded;
use crate::text::add;
use std::alloc::{AllocError, Global};
use vl_catalog::{Catalog, Lookup, LookupNo, Primary, Table, TableNo, Vindex};
use vl_values::bytes::Bytes;

fn keyspace_name(catalog: &Catalog, keyspace: usize) -> &[u8]
    ensures { result.now ≡ keyspace_name catalog.now keyspace }
{
    match catalog.keyspaces.as_slice().get(keyspace) {
        Some(keyspace) => keyspace.name.as_slice(),
        None => &[],
    }
}

fn column_name(table: &Table, column: usize) -> &[u8]
    ensures { result.now ≡ column_name table.now column }
{
    match table.columns.as_slice().get(column) {
        Some(column) => column.name.as_slice(),
        None => &[],
    }
}

fn column_at(table: &Table, column: Option<usize>) -> &[u8]
    ensures { result.now ≡ option_map_or (column_name table.now) column [] }
{
    match column {
        Some(column) => column_name(table, column),
        None => &[],
    }
}

fn vindex_name(vindex: Vindex) -> &'static [u8]
    ensures { result.now ≡ vindex_name vindex }
{
    match vindex {
        Vindex::Numeric => b"numeric",
        Vindex::BinaryMd5 => b"binary_md5",
    }
}

fn add_full_name(text: &mut Vec<u8>, catalog: &Catalog, table: &Table) -> Result<(), AllocError>
    ensures { OnOk result (text.new.items ≡ text.old.items ++ full_name catalog.now table.now) }
{
    add(
        text,
        &[
            keyspace_name(catalog, table.keyspace),
            b".",
            table.name.as_slice(),
        ],
    )
}

// A count, and then what is counted.
fn add_count(text: &mut Vec<u8>, count: usize, what: &[u8]) -> Result<(), AllocError>
    ensures { OnOk result (text.new.items ≡ text.old.items ++ (decimal count ++ what.now)) }
{
    let mut buffer = itoa::Buffer::new();
    text.extend_from_slice(buffer.format(count).as_bytes())?;
    text.extend_from_slice(what)?;
    Ok(())
}

fn add_count_line(text: &mut Vec<u8>, catalog: &Catalog, shards: u32) -> Result<(), AllocError>
    requires { shards ≡ shard_count catalog.now.rings }
    ensures { OnOk result (text.new.items ≡ text.old.items ++ count_line catalog.now) }
{
    text.extend_from_slice(b"catalog: ")?;
    add_count(text, catalog.keyspaces.len(), b" keyspaces, ")?;
    add_count(text, shards as usize, b" shards, ")?;
    add_count(text, catalog.tables.len(), b" tables, ")?;
    add_count(text, catalog.lookups.len(), b" lookups\n")?;
    Ok(())
}

fn add_placement(
    text: &mut Vec<u8>,
    table: &Table,
    primary: Option<Primary>,
) -> Result<(), AllocError>
    ensures { OnOk result (text.new.items ≡ text.old.items ++ placement table.now primary) }
{
    match primary {
        Some(primary) => {
            add(
                text,
                &[b" primary ", column_name(table, primary.column), b" "],
            )?;
            text.extend_from_slice(vindex_name(primary.vindex))?;
            add(text, &[b"\n"])
        }
        None => add(text, &[b" unsharded\n"]),
    }
}

fn add_table_line(text: &mut Vec<u8>, catalog: &Catalog, table: &Table) -> Result<(), AllocError>
    ensures { OnOk result (text.new.items ≡ text.old.items ++ table_line catalog.now table.now) }
{
    add(text, &[b"table "])?;
    add_full_name(text, catalog, table)?;
    add_placement(text, table, table.primary)
}

fn table_at(catalog: &Catalog, table: Option<TableNo>) -> Option<&Table>
    ensures { option_copied result ≡ table_at catalog.now table }
{
    match table {
        Some(table) => catalog.tables.as_slice().get(table as usize),
        None => None,
    }
}

// `KEYSPACE.OWNER(column)`.
fn add_owner(text: &mut Vec<u8>, catalog: &Catalog, lookup: &Lookup) -> Result<(), AllocError>
    ensures { OnOk result (text.new.items ≡ text.old.items ++ option_map_or (owner_text catalog.now lookup.now.column) (table_at catalog.now lookup.now.owner) []) }
{
    match table_at(catalog, lookup.owner) {
        Some(owner) => {
            add_full_name(text, catalog, owner)?;
            add(text, &[b"(", column_at(owner, lookup.column), b")"])
        }
        None => Ok(()),
    }
}

fn add_columns(text: &mut Vec<u8>, table: &Table, columns: &[usize]) -> Result<(), AllocError>
    ensures { OnOk result (text.new.items ≡ text.old.items ++ flat_map (λ n. column_name table.now n ++ codes ", ") columns.now) }
{
    for column in columns {
        add(text, &[column_name(table, *column), b", "])?;
    }
    Ok(())
}

// `KEYSPACE.TABLE(from columns, to column)`.
fn add_entry(text: &mut Vec<u8>, catalog: &Catalog, lookup: &Lookup) -> Result<(), AllocError>
    ensures { OnOk result (text.new.items ≡ text.old.items ++ option_map_or (entry_text catalog.now lookup.now) (table_at catalog.now lookup.now.table) []) }
{
    match table_at(catalog, lookup.table) {
        Some(table) => {
            add_full_name(text, catalog, table)?;
            add(text, &[b"("])?;
            add_columns(text, table, lookup.from.as_slice())?;
            add(text, &[column_at(table, lookup.to), b")"])
        }
        None => Ok(()),
    }
}

fn sort_of(unique: bool) -> &'static [u8]
    ensures { result.now ≡ (if unique then codes " unique " else codes " many ") }
{
    if unique { b" unique " } else { b" many " }
}

fn add_lookup_line(text: &mut Vec<u8>, catalog: &Catalog, lookup: &Lookup) -> Result<(), AllocError>
    ensures { OnOk result (text.new.items ≡ text.old.items ++ lookup_line catalog.now lookup.now) }
{
    add(text, &[b"lookup ", lookup.name.as_slice()])?;
    text.extend_from_slice(sort_of(lookup.unique))?;
    add_owner(text, catalog, lookup)?;
    add(text, &[b" to "])?;
    add_entry(text, catalog, lookup)?;
    add(text, &[b"\n"])
}

fn add_lookup(text: &mut Vec<u8>, catalog: &Catalog, number: LookupNo) -> Result<(), AllocError>
    ensures { OnOk result (text.new.items ≡ text.old.items ++ lookup_text catalog.now number) }
{
    match catalog.lookups.as_slice().get(number as usize) {
        Some(lookup) => add_lookup_line(text, catalog, lookup),
        None => Ok(()),
    }
}

fn add_lookups(
    text: &mut Vec<u8>,
    catalog: &Catalog,
    lookups: &[LookupNo],
) -> Result<(), AllocError>
    ensures { OnOk result (text.new.items ≡ text.old.items ++ flat_map (lookup_text catalog.now) lookups.now) }
{
    for number in lookups {
        add_lookup(text, catalog, *number)?;
    }
    Ok(())
}

fn add_tables(text: &mut Vec<u8>, catalog: &Catalog, tables: &[Table]) -> Result<(), AllocError>
    ensures { OnOk result (text.new.items ≡ text.old.items ++ flat_map (table_text catalog.now) tables.now) }
{
    for table in tables {
        add_table_line(text, catalog, table)?;
        add_lookups(text, catalog, table.lookups.as_slice())?;
    }
    Ok(())
}

fn add_ignored(text: &mut Vec<u8>, paths: &[Bytes]) -> Result<(), AllocError>
    ensures { OnOk result (text.new.items ≡ text.old.items ++ flat_map ignored_line paths.now) }
{
    for path in paths {
        add(text, &[b"ignored ", path.as_slice(), b"\n"])?;
    }
    Ok(())
}

/// The lines that tell what was loaded, each with its LF: the counts, the tables in order with the
/// lookups that each lists, and the ignored paths.
pub fn report(alloc: Global, loaded: &Loaded) -> Result<Vec<u8>, AllocError>
    requires { Checked loaded.now.catalog }
    ensures { IfOk result (λ text. text.items ≡ report_of loaded.now) }
{
    let mut text = Vec::new(alloc);
    let catalog = &loaded.catalog;
    match catalog.shard_count() {
        Some(shards) => add_count_line(&mut text, catalog, shards)?,
        None => unreachable!(),
    }
    add_tables(&mut text, catalog, catalog.tables.as_slice())?;
    add_ignored(&mut text, loaded.ignored.as_slice())?;
    Ok(text)
}
