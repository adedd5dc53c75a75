ghost use Rattle.std.specs.Prelude.{◌≡◌, ℕ, IfOk, OnOk, Option, map};
ghost use Rattle.std.specs.List.{filter_map};
ghost use Rattle.vl_catalog.specs.Build.{catalog_of, keyspace_of, lookups_of, number_listed, with_lookups};

use crate::LookupNo;
use crate::bare_table::bare_tables;
use crate::catalog::Catalog;
use crate::column_vindex::ColumnVindex;
use crate::keyspace::Keyspace;
use crate::keyspace_parts::KeyspaceParts;
use crate::lookup_id::LookupId;
use crate::lookup_ids::{id_of, lookup_ids, number_of, vindexes_in};
use crate::lookups::{lookups, numbered, push_some};
use crate::table::Table;
use crate::vindex_def::VindexDef;
use std::alloc::{AllocError, Global};
use vl_values::items::Items;
use vl_vindex::Ring;

// The number of the lookup that a column vindex names.
fn number_listed(
    ids: &[LookupId],
    keyspace: usize,
    vindexes: &[VindexDef],
    vindex: &ColumnVindex,
) -> Result<Option<LookupNo>, AllocError>
    ensures { IfOk result (λ number. number ≡ number_listed ids.now keyspace vindexes.now vindex.now) }
{
    numbered(number_of(ids, id_of(keyspace, vindexes, vindex.vindex.as_slice())))
}

fn numbers_listed(
    alloc: Global,
    ids: &[LookupId],
    keyspace: usize,
    vindexes: &[VindexDef],
    listed: &[ColumnVindex],
) -> Result<Items<LookupNo>, AllocError>
    ensures { IfOk result (λ numbers. numbers ≡ filter_map (number_listed ids.now keyspace vindexes.now) listed.now) }
{
    let mut numbers = Vec::with_capacity(alloc, listed.len())?;
    for vindex in listed {
        push_some(
            &mut numbers,
            number_listed(ids, keyspace, vindexes, vindex)?,
        )?;
    }
    Ok(Items::from_vec(numbers))
}

fn add_lookups(
    alloc: Global,
    parts: &[KeyspaceParts],
    ids: &[LookupId],
    table: &mut Table,
) -> Result<(), AllocError>
    ensures { OnOk result (table.new ≡ with_lookups parts.now ids.now table.old) }
{
    let numbers = numbers_listed(
        alloc,
        ids,
        table.keyspace,
        vindexes_in(parts, table.keyspace),
        table.column_vindexes.as_slice(),
    )?;
    table.lookups = numbers;
    Ok(())
}

fn add_all_lookups(
    alloc: Global,
    parts: &[KeyspaceParts],
    ids: &[LookupId],
    tables: &mut [Table],
) -> Result<(), AllocError>
    ensures { OnOk result (tables.new ≡ map (with_lookups parts.now ids.now) tables.old) }
{
    for table in tables.iter_mut() {
        add_lookups(alloc, parts, ids, table)?;
    }
    Ok(())
}

fn keyspaces(alloc: Global, parts: &[KeyspaceParts]) -> Result<Items<Keyspace>, AllocError>
    ensures { IfOk result (λ keyspaces. keyspaces ≡ map keyspace_of parts.now) }
{
    let mut keyspaces = Vec::with_capacity(alloc, parts.len())?;
    for part in parts {
        keyspaces.push(Keyspace {
            name: part.name.copy(alloc)?,
            sharded: part.vschema.sharded,
        })?;
    }
    Ok(Items::from_vec(keyspaces))
}

fn rings(alloc: Global, parts: &[KeyspaceParts]) -> Result<Items<Ring>, AllocError>
    ensures { IfOk result (λ rings. rings ≡ map (λ part. part.ring) parts.now) }
{
    let mut rings = Vec::with_capacity(alloc, parts.len())?;
    for part in parts {
        rings.push(part.ring.copy(alloc)?)?;
    }
    Ok(Items::from_vec(rings))
}

// The catalog that the parts of its keyspaces mean.
pub(crate) fn catalog_of(alloc: Global, parts: &[KeyspaceParts]) -> Result<Catalog, AllocError>
    ensures { IfOk result (λ catalog. catalog ≡ catalog_of parts.now) }
{
    let mut tables = bare_tables(alloc, parts)?;
    let ids = lookup_ids(alloc, parts, &tables)?;
    let lookups = lookups(alloc, parts, &tables, &ids)?;
    add_all_lookups(alloc, parts, &ids, &mut tables)?;
    Ok(Catalog {
        keyspaces: keyspaces(alloc, parts)?,
        tables: Items::from_vec(tables),
        lookups,
        rings: rings(alloc, parts)?,
    })
}
