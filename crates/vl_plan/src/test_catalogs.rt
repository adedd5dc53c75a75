ghost use Rattle.std.specs.Prelude.{IfOk};
ghost use Rattle.vl_rules.specs.Order.{Checked};

use std::alloc::{AllocError, Global};
use std::test::Fail;
use vl_catalog::{
    Catalog, Column, ColumnVindex, KeyspaceParts, KeyspaceVschema, LookupDef, TableDef,
    TableVschema, Vindex, VindexDef, VindexKind,
};
use vl_rules::Check;
use vl_values::bytes::Bytes;
use vl_values::col_type::ColType;
use vl_values::items::Items;
use vl_vindex::{KeyRange, Ring};

fn text(alloc: Global, text: &str) -> Result<Bytes, AllocError> {
    Bytes::from_slice(alloc, text.as_bytes())
}

fn names(alloc: Global, list: &[&str]) -> Result<Items<Bytes>, AllocError> {
    let mut names = Vec::new(alloc);
    for name in list {
        names.push(text(alloc, name)?)?;
    }
    Ok(Items::from_vec(names))
}

// A table of a schema file: names, types and whether NULL may stand; and the primary key.
fn table(
    alloc: Global,
    name: &str,
    list: &[(&str, ColType, bool)],
    key: &[&str],
) -> Result<TableDef, AllocError> {
    let mut columns = Vec::new(alloc);
    for (name, ty, nullable) in list {
        columns.push(Column {
            name: text(alloc, name)?,
            ty: *ty,
            nullable: *nullable,
        })?;
    }
    Ok(TableDef {
        name: text(alloc, name)?,
        columns: Items::from_vec(columns),
        key: names(alloc, key)?,
        ignored: Items::new(alloc),
    })
}

// A table of a VSchema, by its columns and their vindexes.
fn listed(alloc: Global, name: &str, list: &[(&str, &str)]) -> Result<TableVschema, AllocError> {
    let mut vindexes = Vec::new(alloc);
    for (column, vindex) in list {
        vindexes.push(ColumnVindex {
            columns: names(alloc, &[*column])?,
            vindex: text(alloc, vindex)?,
        })?;
    }
    Ok(TableVschema {
        name: text(alloc, name)?,
        column_vindexes: Items::from_vec(vindexes),
    })
}

fn numeric(alloc: Global) -> Result<VindexDef, AllocError> {
    Ok(VindexDef {
        name: text(alloc, "num")?,
        kind: VindexKind::Primary(Vindex::Numeric),
    })
}

fn lookup(
    alloc: Global,
    name: &str,
    unique: bool,
    owner: &str,
    keyspace: Option<&str>,
    table: &str,
    from: &[&str],
    ignore_nulls: bool,
) -> Result<VindexDef, AllocError> {
    let keyspace = match keyspace {
        Some(name) => Some(text(alloc, name)?),
        None => None,
    };
    let def = LookupDef {
        unique,
        owner: text(alloc, owner)?,
        keyspace,
        table: text(alloc, table)?,
        from: names(alloc, from)?,
        to: text(alloc, "keyspace_id")?,
        ignore_nulls,
        write_only: false,
    };
    Ok(VindexDef {
        name: text(alloc, name)?,
        kind: VindexKind::Lookup(def),
    })
}

fn ring(alloc: Global, texts: &[&str]) -> Result<Ring, Fail> {
    let mut ranges = Vec::new(alloc);
    for text in texts {
        ranges.push(KeyRange::read(text.as_bytes()).ok().ok_or("a range")?)?;
    }
    match Ring::new(ranges) {
        Ok(ring) => Ok(ring),
        Err(_) => Err("a ring".into()),
    }
}

fn keyspace(
    alloc: Global,
    name: &str,
    ring: Ring,
    vindexes: Vec<VindexDef>,
    tables: Vec<TableVschema>,
    defs: Vec<TableDef>,
) -> Result<KeyspaceParts, Fail> {
    let vschema = KeyspaceVschema {
        sharded: !vindexes.is_empty(),
        vindexes: Items::from_vec(vindexes),
        tables: Items::from_vec(tables),
        ignored: Items::new(alloc),
    };
    Ok(KeyspaceParts {
        name: text(alloc, name)?,
        ring,
        vschema,
        tables: Items::from_vec(defs),
    })
}

const ID: ColType = ColType::VarBinary(16);

fn commerce(alloc: Global) -> Result<KeyspaceParts, Fail> {
    let mut vindexes = Vec::new(alloc);
    vindexes.push(lookup(
        alloc,
        "corder_order",
        true,
        "corder",
        Some("product"),
        "corder_order_idx",
        &["order_id"],
        false,
    )?)?;
    vindexes.push(numeric(alloc)?)?;
    let mut tables = Vec::new(alloc);
    let by = [("customer_id", "num"), ("order_id", "corder_order")];
    tables.push(listed(alloc, "corder", &by)?)?;
    let mut defs = Vec::new(alloc);
    let columns = [
        ("customer_id", ColType::BigUint, false),
        ("order_id", ColType::BigUint, false),
        ("sku", ColType::VarChar(64), true),
    ];
    defs.push(table(alloc, "corder", &columns, &["customer_id", "order_id"])?)?;
    let ring = ring(alloc, &["-40", "40-80", "80-c0", "c0-"])?;
    keyspace(alloc, "commerce", ring, vindexes, tables, defs)
}

fn product(alloc: Global) -> Result<KeyspaceParts, Fail> {
    let mut tables = Vec::new(alloc);
    tables.push(listed(alloc, "corder_order_idx", &[])?)?;
    let mut defs = Vec::new(alloc);
    let columns = [
        ("order_id", ColType::BigUint, false),
        ("keyspace_id", ID, true),
    ];
    defs.push(table(alloc, "corder_order_idx", &columns, &["order_id"])?)?;
    let ring = ring(alloc, &["-"])?;
    keyspace(alloc, "product", ring, Vec::new(alloc), tables, defs)
}

// Signed columns, and a lookup of many rows before a unique one.
fn signed(alloc: Global) -> Result<KeyspaceParts, Fail> {
    let mut vindexes = Vec::new(alloc);
    vindexes.push(numeric(alloc)?)?;
    vindexes.push(lookup(alloc, "s_v", true, "s", None, "s_v_idx", &["v"], false)?)?;
    vindexes.push(lookup(
        alloc,
        "s_w",
        false,
        "s",
        None,
        "s_w_idx",
        &["w", "id"],
        true,
    )?)?;
    let mut tables = Vec::new(alloc);
    tables.push(listed(alloc, "s", &[("id", "num"), ("w", "s_w"), ("v", "s_v")])?)?;
    tables.push(listed(alloc, "s_v_idx", &[("v", "num")])?)?;
    tables.push(listed(alloc, "s_w_idx", &[("w", "num")])?)?;
    let mut defs = Vec::new(alloc);
    let columns = [
        ("id", ColType::BigInt, false),
        ("v", ColType::BigInt, true),
        ("w", ColType::Int, true),
        ("x", ColType::VarChar(4), false),
    ];
    defs.push(table(alloc, "s", &columns, &["id"])?)?;
    let columns = [("v", ColType::BigInt, false), ("keyspace_id", ID, true)];
    defs.push(table(alloc, "s_v_idx", &columns, &["v"])?)?;
    let columns = [
        ("w", ColType::Int, false),
        ("id", ColType::BigInt, false),
        ("keyspace_id", ID, true),
    ];
    defs.push(table(alloc, "s_w_idx", &columns, &["w", "id"])?)?;
    let ring = ring(alloc, &["-80", "80-"])?;
    keyspace(alloc, "main", ring, vindexes, tables, defs)
}

fn checked(alloc: Global, catalog: Catalog) -> Result<Catalog, Fail>
    ensures { IfOk result Checked }
{
    match catalog.check(alloc) {
        Ok(()) => Ok(catalog),
        Err(_) => Err("a catalog that keeps its rules".into()),
    }
}

pub fn catalog_a(alloc: Global) -> Result<Catalog, Fail>
    ensures { IfOk result Checked }
{
    let catalog = Catalog::a(alloc)?;
    checked(alloc, catalog)
}

/// Keyspace commerce with corder, whose lookup stands in the unsharded keyspace product.
pub fn catalog_b(alloc: Global) -> Result<Catalog, Fail>
    ensures { IfOk result Checked }
{
    let mut parts = Vec::new(alloc);
    parts.push(commerce(alloc)?)?;
    parts.push(product(alloc)?)?;
    let catalog = Catalog::build(alloc, parts)?;
    checked(alloc, catalog)
}

/// Table s, with signed columns.
pub fn catalog_signed(alloc: Global) -> Result<Catalog, Fail>
    ensures { IfOk result Checked }
{
    let mut parts = Vec::new(alloc);
    parts.push(signed(alloc)?)?;
    let catalog = Catalog::build(alloc, parts)?;
    checked(alloc, catalog)
}
