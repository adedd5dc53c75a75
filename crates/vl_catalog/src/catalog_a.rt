ghost use Rattle.std.specs.Prelude.{◌≡◌, [], ◌∷◌, IfOk, codes, true, false, Bool};
ghost use Rattle.vl_catalog.specs.CatalogA.{catalog_a, column, column_vindex, halves, high_half, keyspace_id, lookup_def, low_half, parts_a, primary_def, t1_def, t1_u_idx_def, t2_a_idx_def, t2_b_idx_def, t2_def, t2_vschema, table_def, table_vschema, vschema_a, vindexes_a, tables_a, defs_a};

use crate::build::catalog_of;
use crate::catalog::Catalog;
use crate::column::Column;
use crate::column_vindex::ColumnVindex;
use crate::keyspace_parts::KeyspaceParts;
use crate::keyspace_vschema::KeyspaceVschema;
use crate::lookup_def::LookupDef;
use crate::table_def::TableDef;
use crate::table_vschema::TableVschema;
use crate::vindex::Vindex;
use crate::vindex_def::{VindexDef, VindexKind};
use std::alloc::{AllocError, Global};
use vl_values::bytes::Bytes;
use vl_values::col_type::ColType;
use vl_values::items::Items;
use vl_vindex::{KeyRange, Ring};

fn low_half() -> KeyRange
    ensures { result ≡ low_half }
{
    match KeyRange::read(b"-80") {
        Ok(range) => range,
        Err(_) => unreachable!(),
    }
}

fn high_half() -> KeyRange
    ensures { result ≡ high_half }
{
    match KeyRange::read(b"80-") {
        Ok(range) => range,
        Err(_) => unreachable!(),
    }
}

fn halves(alloc: Global) -> Result<Ring, AllocError>
    ensures { IfOk result (λ ring. ring ≡ halves) }
{
    let ranges = vec![in alloc; low_half(), high_half()]?;
    match Ring::new(ranges) {
        Ok(ring) => Ok(ring),
        Err(_) => unreachable!(),
    }
}

pub(crate) fn one_name(alloc: Global, name: &[u8]) -> Result<Items<Bytes>, AllocError>
    ensures { IfOk result (λ names. names ≡ name.now ∷ []) }
{
    let name = Bytes::from_slice(alloc, name)?;
    Ok(Items::from_vec(vec![in alloc; name]?))
}

pub(crate) fn two_names(
    alloc: Global,
    first: &[u8],
    second: &[u8],
) -> Result<Items<Bytes>, AllocError>
    ensures { IfOk result (λ names. names ≡ first.now ∷ second.now ∷ []) }
{
    let first = Bytes::from_slice(alloc, first)?;
    let second = Bytes::from_slice(alloc, second)?;
    Ok(Items::from_vec(vec![in alloc; first, second]?))
}

pub(crate) fn column(
    alloc: Global,
    name: &[u8],
    ty: ColType,
    nullable: bool,
) -> Result<Column, AllocError>
    ensures { IfOk result (λ made. made ≡ column name.now ty nullable) }
{
    Ok(Column {
        name: Bytes::from_slice(alloc, name)?,
        ty,
        nullable,
    })
}

fn keyspace_id(alloc: Global) -> Result<Column, AllocError>
    ensures { IfOk result (λ made. made ≡ keyspace_id) }
{
    column(alloc, b"keyspace_id", ColType::VarBinary(16), true)
}

pub(crate) fn table_def(
    alloc: Global,
    name: &[u8],
    columns: Vec<Column>,
    key: Items<Bytes>,
) -> Result<TableDef, AllocError>
    ensures { IfOk result (λ def. def ≡ table_def name.now columns.items key) }
{
    Ok(TableDef {
        name: Bytes::from_slice(alloc, name)?,
        columns: Items::from_vec(columns),
        key,
        ignored: Items::new(alloc),
    })
}

fn t1(alloc: Global) -> Result<TableDef, AllocError>
    ensures { IfOk result (λ def. def ≡ t1_def) }
{
    let id = column(alloc, b"id", ColType::BigUint, false)?;
    let u = column(alloc, b"u", ColType::BigUint, true)?;
    let columns = vec![in alloc; id, u]?;
    table_def(alloc, b"t1", columns, one_name(alloc, b"id")?)
}

fn t1_u_idx(alloc: Global) -> Result<TableDef, AllocError>
    ensures { IfOk result (λ def. def ≡ t1_u_idx_def) }
{
    let u = column(alloc, b"u", ColType::BigUint, false)?;
    let columns = vec![in alloc; u, keyspace_id(alloc)?]?;
    table_def(alloc, b"t1_u_idx", columns, one_name(alloc, b"u")?)
}

fn t2(alloc: Global) -> Result<TableDef, AllocError>
    ensures { IfOk result (λ def. def ≡ t2_def) }
{
    let id = column(alloc, b"id", ColType::BigUint, false)?;
    let a = column(alloc, b"a", ColType::BigUint, true)?;
    let b = column(alloc, b"b", ColType::VarChar(32), true)?;
    let columns = vec![in alloc; id, a, b]?;
    table_def(alloc, b"t2", columns, one_name(alloc, b"id")?)
}

fn t2_a_idx(alloc: Global) -> Result<TableDef, AllocError>
    ensures { IfOk result (λ def. def ≡ t2_a_idx_def) }
{
    let a = column(alloc, b"a", ColType::BigUint, false)?;
    let columns = vec![in alloc; a, keyspace_id(alloc)?]?;
    table_def(alloc, b"t2_a_idx", columns, one_name(alloc, b"a")?)
}

fn t2_b_idx(alloc: Global) -> Result<TableDef, AllocError>
    ensures { IfOk result (λ def. def ≡ t2_b_idx_def) }
{
    let b = column(alloc, b"b", ColType::VarChar(32), false)?;
    let id = column(alloc, b"id", ColType::BigUint, false)?;
    let columns = vec![in alloc; b, id, keyspace_id(alloc)?]?;
    table_def(alloc, b"t2_b_idx", columns, two_names(alloc, b"b", b"id")?)
}

pub(crate) fn primary_def(
    alloc: Global,
    name: &[u8],
    vindex: Vindex,
) -> Result<VindexDef, AllocError>
    ensures { IfOk result (λ def. def ≡ primary_def name.now vindex) }
{
    Ok(VindexDef {
        name: Bytes::from_slice(alloc, name)?,
        kind: VindexKind::Primary(vindex),
    })
}

// A lookup whose table stands in the same keyspace.
fn lookup_def(
    alloc: Global,
    name: &[u8],
    unique: bool,
    owner: &[u8],
    table: &[u8],
    from: Items<Bytes>,
    ignore_nulls: bool,
) -> Result<VindexDef, AllocError>
    ensures { IfOk result (λ def. def ≡ lookup_def name.now unique owner.now table.now from ignore_nulls) }
{
    let def = LookupDef {
        unique,
        owner: Bytes::from_slice(alloc, owner)?,
        keyspace: None,
        table: Bytes::from_slice(alloc, table)?,
        from,
        to: Bytes::from_slice(alloc, b"keyspace_id")?,
        ignore_nulls,
        write_only: false,
    };
    Ok(VindexDef {
        name: Bytes::from_slice(alloc, name)?,
        kind: VindexKind::Lookup(def),
    })
}

pub(crate) fn column_vindex(
    alloc: Global,
    column: &[u8],
    vindex: &[u8],
) -> Result<ColumnVindex, AllocError>
    ensures { IfOk result (λ made. made ≡ column_vindex column.now vindex.now) }
{
    Ok(ColumnVindex {
        columns: one_name(alloc, column)?,
        vindex: Bytes::from_slice(alloc, vindex)?,
    })
}

pub(crate) fn table_vschema(
    alloc: Global,
    name: &[u8],
    column_vindexes: Vec<ColumnVindex>,
) -> Result<TableVschema, AllocError>
    ensures { IfOk result (λ made. made ≡ table_vschema name.now column_vindexes.items) }
{
    Ok(TableVschema {
        name: Bytes::from_slice(alloc, name)?,
        column_vindexes: Items::from_vec(column_vindexes),
    })
}

fn vindexes(alloc: Global) -> Result<Vec<VindexDef>, AllocError>
    ensures { IfOk result (λ made. made.items ≡ vindexes_a) }
{
    let by_md5 = primary_def(alloc, b"by_md5", Vindex::BinaryMd5)?;
    let by_num = primary_def(alloc, b"by_num", Vindex::Numeric)?;
    let u = one_name(alloc, b"u")?;
    let t1_u = lookup_def(alloc, b"t1_u", true, b"t1", b"t1_u_idx", u, true)?;
    let a = one_name(alloc, b"a")?;
    let t2_a = lookup_def(alloc, b"t2_a", true, b"t2", b"t2_a_idx", a, false)?;
    let b_id = two_names(alloc, b"b", b"id")?;
    let t2_b = lookup_def(alloc, b"t2_b", false, b"t2", b"t2_b_idx", b_id, true)?;
    Ok(vec![in alloc; by_md5, by_num, t1_u, t2_a, t2_b]?)
}

// A table with its primary vindex alone.
fn vschema_of_one(
    alloc: Global,
    name: &[u8],
    column: &[u8],
    vindex: &[u8],
) -> Result<TableVschema, AllocError>
    ensures { IfOk result (λ made. made ≡ table_vschema name.now (column_vindex column.now vindex.now ∷ [])) }
{
    let primary = column_vindex(alloc, column, vindex)?;
    table_vschema(alloc, name, vec![in alloc; primary]?)
}

fn vschemas(alloc: Global) -> Result<Vec<TableVschema>, AllocError>
    ensures { IfOk result (λ made. made.items ≡ tables_a) }
{
    let id = column_vindex(alloc, b"id", b"by_num")?;
    let u = column_vindex(alloc, b"u", b"t1_u")?;
    let t1 = table_vschema(alloc, b"t1", vec![in alloc; id, u]?)?;
    let t1_u_idx = vschema_of_one(alloc, b"t1_u_idx", b"u", b"by_num")?;
    let t2 = vschema_of_t2(alloc)?;
    let t2_a_idx = vschema_of_one(alloc, b"t2_a_idx", b"a", b"by_num")?;
    let t2_b_idx = vschema_of_one(alloc, b"t2_b_idx", b"b", b"by_md5")?;
    Ok(vec![in alloc; t1, t1_u_idx, t2, t2_a_idx, t2_b_idx]?)
}

fn vschema_of_t2(alloc: Global) -> Result<TableVschema, AllocError>
    ensures { IfOk result (λ made. made ≡ t2_vschema) }
{
    let id = column_vindex(alloc, b"id", b"by_num")?;
    let a = column_vindex(alloc, b"a", b"t2_a")?;
    let b = column_vindex(alloc, b"b", b"t2_b")?;
    table_vschema(alloc, b"t2", vec![in alloc; id, a, b]?)
}

fn defs(alloc: Global) -> Result<Vec<TableDef>, AllocError>
    ensures { IfOk result (λ made. made.items ≡ defs_a) }
{
    let t1 = t1(alloc)?;
    let t1_u_idx = t1_u_idx(alloc)?;
    let t2 = t2(alloc)?;
    let t2_a_idx = t2_a_idx(alloc)?;
    let t2_b_idx = t2_b_idx(alloc)?;
    Ok(vec![in alloc; t1, t1_u_idx, t2, t2_a_idx, t2_b_idx]?)
}

fn parts(alloc: Global) -> Result<KeyspaceParts, AllocError>
    ensures { IfOk result (λ parts. parts ≡ parts_a) }
{
    let vschema = KeyspaceVschema {
        sharded: true,
        vindexes: Items::from_vec(vindexes(alloc)?),
        tables: Items::from_vec(vschemas(alloc)?),
        ignored: Items::new(alloc),
    };
    Ok(KeyspaceParts {
        name: Bytes::from_slice(alloc, b"commerce")?,
        ring: halves(alloc)?,
        vschema,
        tables: Items::from_vec(defs(alloc)?),
    })
}

// The built-in catalog.
pub(crate) fn catalog_a(alloc: Global) -> Result<Catalog, AllocError>
    ensures { IfOk result (λ catalog. catalog ≡ catalog_a) }
{
    let parts = vec![in alloc; parts(alloc)?]?;
    catalog_of(alloc, &parts)
}
