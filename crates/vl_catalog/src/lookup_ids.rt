ghost use Rattle.std.specs.Prelude.{◌≡◌, ℕ, IfOk, OnOk, Option, fold};
ghost use Rattle.vl_catalog.specs.Build.{declared_from, id_at, id_of, ids_listed, has_id, is_id, is_lookup_kind, lookup_ids, number_of, place_of, vindex_number, vindexes_in, with_declared, with_id, with_listed, with_vindex};

use crate::column_vindex::ColumnVindex;
use crate::keyspace_parts::KeyspaceParts;
use crate::lookup_id::LookupId;
use crate::table::Table;
use crate::vindex_def::{VindexDef, VindexKind};
use std::alloc::{AllocError, Global};

// The vindexes of a keyspace.
pub(crate) fn vindexes_in(parts: &[KeyspaceParts], keyspace: usize) -> &[VindexDef]
    ensures { result.now ≡ vindexes_in parts.now keyspace }
{
    match parts.get(keyspace) {
        Some(part) => part.vschema.vindexes.as_slice(),
        None => &[],
    }
}

fn is_lookup(kind: &VindexKind) -> bool
    ensures { result ≡ is_lookup_kind kind.now }
{
    match kind {
        VindexKind::Primary(_) => false,
        VindexKind::Lookup(_) => true,
    }
}

fn id_at(keyspace: usize, vindexes: &[VindexDef], vindex: usize) -> Option<LookupId>
    ensures { result ≡ id_at keyspace vindexes.now vindex }
{
    match vindexes.get(vindex) {
        Some(def) => {
            if is_lookup(&def.kind) {
                Some(LookupId { keyspace, vindex })
            } else {
                None
            }
        }
        None => None,
    }
}

fn vindex_number(vindexes: &[VindexDef], name: &[u8]) -> Option<usize>
    ensures { result ≡ vindex_number vindexes.now name.now }
{
    vindexes
        .iter()
        .position(|vindex| vindex.name.as_slice() == name)
}

// The lookup of this name in a keyspace.
pub(crate) fn id_of(keyspace: usize, vindexes: &[VindexDef], name: &[u8]) -> Option<LookupId>
    ensures { result ≡ id_of keyspace vindexes.now name.now }
{
    match vindex_number(vindexes, name) {
        Some(vindex) => id_at(keyspace, vindexes, vindex),
        None => None,
    }
}

fn is_id(a: &LookupId, b: &LookupId) -> bool
    ensures { result ≡ is_id a.now b.now }
{
    a.keyspace == b.keyspace && a.vindex == b.vindex
}

fn place_of(ids: &[LookupId], id: &LookupId) -> Option<usize>
    ensures { result ≡ place_of ids.now id.now }
{
    ids.iter().position(|other| is_id(other, id))
}

// The number of a lookup, which is its place among all.
pub(crate) fn number_of(ids: &[LookupId], id: Option<LookupId>) -> Option<usize>
    ensures { result ≡ number_of ids.now id }
{
    match id {
        Some(id) => place_of(ids, &id),
        None => None,
    }
}

fn has_id(ids: &[LookupId], id: &LookupId) -> bool
    ensures { result ≡ has_id ids.now id.now }
{
    ids.iter().any(|other| is_id(other, id))
}

fn add_id(ids: &mut Vec<LookupId>, id: Option<LookupId>) -> Result<(), AllocError>
    ensures { OnOk result (ids.new.items ≡ with_id ids.old.items id) }
{
    match id {
        Some(id) => {
            if has_id(ids, &id) {
                Ok(())
            } else {
                ids.push(id)?;
                Ok(())
            }
        }
        None => Ok(()),
    }
}

fn add_listed(
    ids: &mut Vec<LookupId>,
    keyspace: usize,
    vindexes: &[VindexDef],
    listed: &[ColumnVindex],
) -> Result<(), AllocError>
    ensures { OnOk result (ids.new.items ≡ fold (with_vindex keyspace vindexes.now) ids.old.items listed.now) }
{
    for vindex in listed {
        add_id(ids, id_of(keyspace, vindexes, vindex.vindex.as_slice()))?;
    }
    Ok(())
}

fn ids_listed(
    alloc: Global,
    parts: &[KeyspaceParts],
    tables: &[Table],
) -> Result<Vec<LookupId>, AllocError>
    ensures { IfOk result (λ ids. ids.items ≡ ids_listed parts.now tables.now) }
{
    let mut ids = Vec::new(alloc);
    for table in tables {
        let vindexes = vindexes_in(parts, table.keyspace);
        add_listed(
            &mut ids,
            table.keyspace,
            vindexes,
            table.column_vindexes.as_slice(),
        )?;
    }
    Ok(ids)
}

fn add_declared(
    ids: &mut Vec<LookupId>,
    keyspace: usize,
    vindexes: &[VindexDef],
) -> Result<(), AllocError>
    ensures { OnOk result (ids.new.items ≡ with_declared keyspace vindexes.now ids.old.items) }
{
    for vindex in vindexes {
        add_id(ids, id_of(keyspace, vindexes, vindex.name.as_slice()))?;
    }
    Ok(())
}

// The lookups in the order of their numbers.
pub(crate) fn lookup_ids(
    alloc: Global,
    parts: &[KeyspaceParts],
    tables: &[Table],
) -> Result<Vec<LookupId>, AllocError>
    ensures { IfOk result (λ ids. ids.items ≡ lookup_ids parts.now tables.now) }
{
    let mut ids = ids_listed(alloc, parts, tables)?;
    for (keyspace, part) in parts.iter().enumerate() {
        add_declared(&mut ids, keyspace, part.vschema.vindexes.as_slice())?;
    }
    Ok(ids)
}
