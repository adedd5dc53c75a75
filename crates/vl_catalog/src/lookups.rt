ghost use Rattle.std.specs.Prelude.{◌≡◌, ◌∷◌, ◌++◌, [], ℕ, find, ◌^◌, ◌<◌, IfOk, OnOk, Option, Some, None, is_some, option_and_then, nat_eq, length, slice_get};
ghost use Rattle.std.specs.List.{cons_option, filter_map, list_any};
ghost use Rattle.std.specs.Option.{option_copied};
ghost use Rattle.vl_catalog.specs.Build.{column_in, columns_by, columns_listed, columns_of, has_vindex, is_key_rest, is_table, keyspace_by, keyspace_number, listing, lists, lookup_by, lookup_of, lookup_of_kind, meant_columns, one_column, other_keys, table_at, table_in, table_number};

use crate::TableNo;
use crate::column::Column;
use crate::column_vindex::ColumnVindex;
use crate::columns::{column_number, column_numbers, one_column};
use crate::copies::name_of;
use crate::keyspace_parts::KeyspaceParts;
use crate::lookup::Lookup;
use crate::lookup_def::LookupDef;
use crate::lookup_id::LookupId;
use crate::lookup_ids::vindexes_in;
use crate::table::Table;
use crate::vindex_def::{VindexDef, VindexKind};
use std::alloc::{AllocError, Global};
use vl_values::bytes::Bytes;
use vl_values::items::Items;

fn is_table(table: &Table, keyspace: usize, name: &[u8]) -> bool
    ensures { result ≡ is_table keyspace name.now table.now }
{
    table.keyspace == keyspace && table.name.as_slice() == name
}

fn table_number(tables: &[Table], keyspace: usize, name: &[u8]) -> Option<usize>
    ensures { result ≡ table_number tables.now keyspace name.now }
{
    tables
        .iter()
        .position(|table| is_table(table, keyspace, name))
}

fn keyspace_number(parts: &[KeyspaceParts], name: &[u8]) -> Option<usize>
    ensures { result ≡ keyspace_number parts.now name.now }
{
    parts.iter().position(|part| part.name.as_slice() == name)
}

// The keyspace that is named, or else the lookup's own.
fn keyspace_by(parts: &[KeyspaceParts], keyspace: usize, name: &Option<Bytes>) -> Option<usize>
    ensures { result ≡ keyspace_by parts.now keyspace name.now }
{
    match name {
        Some(name) => keyspace_number(parts, name.as_slice()),
        None => Some(keyspace),
    }
}

fn table_in(tables: &[Table], keyspace: Option<usize>, name: &[u8]) -> Option<usize>
    ensures { result ≡ table_in tables.now keyspace name.now }
{
    match keyspace {
        Some(keyspace) => table_number(tables, keyspace, name),
        None => None,
    }
}

fn table_at(tables: &[Table], number: Option<usize>) -> Option<&Table>
    ensures { option_copied result ≡ table_at tables.now number }
{
    match number {
        Some(number) => tables.get(number),
        None => None,
    }
}

fn columns_of(table: Option<&Table>) -> &[Column]
    ensures { result.now ≡ columns_of (option_copied table.entry) }
{
    match table {
        Some(table) => table.columns.as_slice(),
        None => &[],
    }
}

// The primary key's columns other than this one.
fn other_keys(alloc: Global, key: &[usize], column: Option<usize>) -> Result<Vec<usize>, AllocError>
    ensures { IfOk result (λ others. others.items ≡ other_keys key.now column) }
{
    match column {
        Some(column) => others(alloc, key, column),
        None => Vec::from_slice(alloc, key),
    }
}

fn others(alloc: Global, key: &[usize], column: usize) -> Result<Vec<usize>, AllocError>
    ensures { IfOk result (λ others. others.items ≡ other_keys key.now (Some column)) }
{
    let mut others = Vec::with_capacity(alloc, key.len())?;
    for number in key {
        if *number != column {
            others.push(*number)?;
        }
    }
    Ok(others)
}

// Whether the names are the owner's primary key columns other than this column, in their order.
fn is_key_rest(
    alloc: Global,
    owner: Option<&Table>,
    column: &[u8],
    rest: &[Bytes],
) -> Result<bool, AllocError>
    ensures { IfOk result (λ holds. holds ≡ is_key_rest (option_copied owner.entry) column.now rest.now) }
{
    match owner {
        Some(owner) => is_rest(alloc, owner, column, rest),
        None => Ok(false),
    }
}

fn is_rest(alloc: Global, owner: &Table, column: &[u8], rest: &[Bytes]) -> Result<bool, AllocError>
    ensures { IfOk result (λ holds. holds ≡ is_key_rest (Some owner.now) column.now rest.now) }
{
    let columns = owner.columns.as_slice();
    let numbers = column_numbers(alloc, columns, rest)?;
    let others = other_keys(alloc, owner.pk.as_slice(), column_number(columns, column))?;
    Ok(numbers.as_slice() == others.as_slice() && rest.len() == others.len())
}

// The one column that a column vindex means, of those that it names.
fn meant_column(
    alloc: Global,
    columns: &[Column],
    unique: bool,
    owner: Option<&Table>,
    column: &[u8],
    rest: &[Bytes],
) -> Result<Option<usize>, AllocError>
    ensures { IfOk result (λ n. n ≡ one_column columns.now (meant_columns unique (option_copied owner.entry) (column.now ∷ rest.now))) }
{
    if rest.is_empty() {
        return Ok(column_number(columns, column));
    }
    if !unique && is_key_rest(alloc, owner, column, rest)? {
        return Ok(column_number(columns, column));
    }
    Ok(None)
}

fn column_of(
    alloc: Global,
    columns: &[Column],
    unique: bool,
    owner: Option<&Table>,
    names: &[Bytes],
) -> Result<Option<usize>, AllocError>
    ensures { IfOk result (λ n. n ≡ one_column columns.now (meant_columns unique (option_copied owner.entry) names.now)) }
{
    match names {
        [column, rest @ ..] => {
            meant_column(alloc, columns, unique, owner, column.as_slice(), rest)
        }
        [] => Ok(None),
    }
}

fn has_vindex(vindex: &ColumnVindex, name: &[u8]) -> bool
    ensures { result ≡ has_vindex name.now vindex.now }
{
    vindex.vindex.as_slice() == name
}

fn lists(table: &Table, keyspace: usize, name: &[u8]) -> bool
    ensures { result ≡ lists keyspace name.now table.now }
{
    table.keyspace == keyspace && has_any(table.column_vindexes.as_slice(), name)
}

fn has_any(vindexes: &[ColumnVindex], name: &[u8]) -> bool
    ensures { result ≡ list_any (has_vindex name.now) vindexes.now }
{
    vindexes.iter().any(|vindex| has_vindex(vindex, name))
}

// The first table that lists the lookup.
fn listing<'a>(tables: &'a [Table], keyspace: usize, name: &[u8]) -> Option<&'a Table>
    ensures { option_copied result ≡ listing tables.now keyspace name.now }
{
    tables.iter().find(|table| lists(table, keyspace, name))
}

fn vindex_listed<'a>(vindexes: &'a [ColumnVindex], name: &[u8]) -> Option<&'a ColumnVindex>
    ensures { option_copied result ≡ find (has_vindex name.now) vindexes.now }
{
    vindexes.iter().find(|vindex| has_vindex(vindex, name))
}

fn columns_listed<'a>(vindexes: &'a [ColumnVindex], name: &[u8]) -> &'a [Bytes]
    ensures { result.now ≡ columns_listed vindexes.now name.now }
{
    match vindex_listed(vindexes, name) {
        Some(vindex) => vindex.columns.as_slice(),
        None => &[],
    }
}

// The one column by which a table lists the lookup.
fn column_in(
    alloc: Global,
    table: Option<&Table>,
    unique: bool,
    owner: Option<&Table>,
    name: &[u8],
) -> Result<Option<usize>, AllocError>
    ensures { IfOk result (λ n. n ≡ column_in (option_copied table.entry) unique (option_copied owner.entry) name.now) }
{
    match table {
        Some(table) => column_of(
            alloc,
            table.columns.as_slice(),
            unique,
            owner,
            columns_listed(table.column_vindexes.as_slice(), name),
        ),
        None => Ok(None),
    }
}

// A place as a number of 32 bits. There is no memory for a list in which it doesn't fit.
pub(crate) fn numbered(place: Option<usize>) -> Result<Option<u32>, AllocError>
    ensures { IfOk result (λ number. number ≡ place) }
{
    match place {
        Some(place) => match u32::try_from(place) {
            Ok(number) => Ok(Some(number)),
            Err(_) => Err(AllocError),
        },
        None => Ok(None),
    }
}

// The lookup of this name that the VSchema of the keyspace defines.
fn lookup_by(
    alloc: Global,
    parts: &[KeyspaceParts],
    tables: &[Table],
    keyspace: usize,
    name: &Bytes,
    def: &LookupDef,
) -> Result<Lookup, AllocError>
    ensures { IfOk result (λ lookup. lookup ≡ lookup_by parts.now tables.now keyspace name.now def.now) }
{
    let owner = table_number(tables, keyspace, def.owner.as_slice());
    let table = table_in(
        tables,
        keyspace_by(parts, keyspace, &def.keyspace),
        def.table.as_slice(),
    );
    let listed = listing(tables, keyspace, name.as_slice());
    let column = column_in(
        alloc,
        listed,
        def.unique,
        table_at(tables, owner),
        name.as_slice(),
    )?;
    let columns = columns_of(table_at(tables, table));
    let from = column_numbers(alloc, columns, def.from.as_slice())?;
    Ok(Lookup {
        name: name.copy(alloc)?,
        keyspace,
        unique: def.unique,
        column,
        ignore_nulls: def.ignore_nulls,
        write_only: def.write_only,
        owner: numbered(owner)?,
        owner_name: def.owner.copy(alloc)?,
        table: numbered(table)?,
        table_keyspace: name_of(alloc, &def.keyspace)?,
        table_name: def.table.copy(alloc)?,
        from: Items::from_vec(from),
        to: column_number(columns, def.to.as_slice()),
    })
}

fn lookup_of_kind(
    alloc: Global,
    parts: &[KeyspaceParts],
    tables: &[Table],
    keyspace: usize,
    vindex: &VindexDef,
) -> Result<Option<Lookup>, AllocError>
    ensures { IfOk result (λ lookup. lookup ≡ lookup_of_kind parts.now tables.now keyspace vindex.now.name vindex.now.kind) }
{
    match &vindex.kind {
        VindexKind::Lookup(def) => {
            match lookup_by(alloc, parts, tables, keyspace, &vindex.name, def) {
                Ok(lookup) => Ok(Some(lookup)),
                Err(error) => Err(error),
            }
        }
        VindexKind::Primary(_) => Ok(None),
    }
}

fn lookup_of(
    alloc: Global,
    parts: &[KeyspaceParts],
    tables: &[Table],
    id: &LookupId,
) -> Result<Option<Lookup>, AllocError>
    ensures { IfOk result (λ lookup. lookup ≡ lookup_of parts.now tables.now id.now) }
{
    match vindexes_in(parts, id.keyspace).get(id.vindex) {
        Some(vindex) => lookup_of_kind(alloc, parts, tables, id.keyspace, vindex),
        None => Ok(None),
    }
}

pub(crate) fn push_some<T: Drop>(items: &mut Vec<T>, item: Option<T>) -> Result<(), AllocError>
    ensures { OnOk result (items.new.items ≡ items.old.items ++ cons_option item []) }
{
    match item {
        Some(item) => {
            items.push(item)?;
            Ok(())
        }
        None => Ok(()),
    }
}

// The lookups in the order of their numbers.
pub(crate) fn lookups(
    alloc: Global,
    parts: &[KeyspaceParts],
    tables: &[Table],
    ids: &[LookupId],
) -> Result<Items<Lookup>, AllocError>
    ensures { IfOk result (λ lookups. lookups ≡ filter_map (lookup_of parts.now tables.now) ids.now) }
{
    let mut lookups = Vec::with_capacity(alloc, ids.len())?;
    for id in ids {
        push_some(&mut lookups, lookup_of(alloc, parts, tables, id)?)?;
    }
    Ok(Items::from_vec(lookups))
}
