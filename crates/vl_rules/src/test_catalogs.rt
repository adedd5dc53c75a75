// Catalogs of two keyspaces: commerce with the table corder on four shards, and product with the table
// of its lookup on one.
use crate::test_changes::{Listed, column_vindexes, name, names};
use std::alloc::{AllocError, Global};
use std::test::Fail;
use vl_catalog::{
    Catalog, Column, KeyspaceParts, KeyspaceVschema, LookupDef, TableDef, TableVschema, Vindex,
    VindexDef, VindexKind,
};
use vl_values::col_type::ColType;
use vl_values::items::Items;
use vl_vindex::{KeyRange, Ring};

// What may be wrong in the files.
#[derive(Clone, Copy)]
pub(crate) struct Files {
    pub(crate) corder_key: &'static [&'static str],
    pub(crate) corder_vindexes: &'static [Listed],
    pub(crate) owner: &'static str,
    pub(crate) keyspace: Option<&'static str>,
    pub(crate) table: &'static str,
    pub(crate) unique: bool,
    pub(crate) product_ranges: &'static [&'static str],
    pub(crate) product_vindexes: &'static [Listed],
    pub(crate) product_alone: bool,
}

pub(crate) const GOOD: Files = Files {
    corder_key: &["customer_id", "order_id"],
    corder_vindexes: &[(&["customer_id"], "num"), (&["order_id"], "corder_order")],
    owner: "corder",
    keyspace: Some("product"),
    table: "corder_order_idx",
    unique: true,
    product_ranges: &["-"],
    product_vindexes: &[],
    product_alone: false,
};

fn ring(alloc: Global, texts: &[&str]) -> Result<Ring, Fail> {
    let mut ranges = Vec::new(alloc);
    for text in texts {
        ranges.push(KeyRange::read(text.as_bytes()).ok().ok_or("a range")?)?;
    }
    Ok(Ring::new(ranges).ok().ok_or("a ring")?)
}

fn column(alloc: Global, text: &str, ty: ColType, nullable: bool) -> Result<Column, AllocError> {
    let name = name(alloc, text)?;
    Ok(Column { name, ty, nullable })
}

fn table(
    alloc: Global,
    text: &str,
    columns: Vec<Column>,
    key: &[&str],
) -> Result<TableDef, AllocError> {
    Ok(TableDef {
        name: name(alloc, text)?,
        columns: Items::from_vec(columns),
        key: names(alloc, key)?,
        ignored: Items::new(alloc),
    })
}

fn corder(alloc: Global, key: &[&str]) -> Result<TableDef, AllocError> {
    let customer = column(alloc, "customer_id", ColType::BigUint, false)?;
    let order = column(alloc, "order_id", ColType::BigUint, false)?;
    let sku = column(alloc, "sku", ColType::VarChar(64), true)?;
    table(alloc, "corder", vec![in alloc; customer, order, sku]?, key)
}

fn corder_order_idx(alloc: Global) -> Result<TableDef, AllocError> {
    let order = column(alloc, "order_id", ColType::BigUint, false)?;
    let ksid = column(alloc, "keyspace_id", ColType::VarBinary(16), true)?;
    table(
        alloc,
        "corder_order_idx",
        vec![in alloc; order, ksid]?,
        &["order_id"],
    )
}

fn vschema(
    alloc: Global,
    sharded: bool,
    vindexes: Vec<VindexDef>,
    tables: Vec<TableVschema>,
) -> KeyspaceVschema {
    KeyspaceVschema {
        sharded,
        vindexes: Items::from_vec(vindexes),
        tables: Items::from_vec(tables),
        ignored: Items::new(alloc),
    }
}

fn listed(alloc: Global, text: &str, vindexes: &[Listed]) -> Result<TableVschema, AllocError> {
    Ok(TableVschema {
        name: name(alloc, text)?,
        column_vindexes: column_vindexes(alloc, vindexes)?,
    })
}

fn corder_order(alloc: Global, files: &Files) -> Result<VindexDef, AllocError> {
    let keyspace = match files.keyspace {
        Some(text) => Some(name(alloc, text)?),
        None => None,
    };
    let def = LookupDef {
        unique: files.unique,
        owner: name(alloc, files.owner)?,
        keyspace,
        table: name(alloc, files.table)?,
        from: names(alloc, &["order_id"])?,
        to: name(alloc, "keyspace_id")?,
        ignore_nulls: false,
        write_only: false,
    };
    Ok(VindexDef {
        name: name(alloc, "corder_order")?,
        kind: VindexKind::Lookup(def),
    })
}

fn num(alloc: Global) -> Result<VindexDef, AllocError> {
    Ok(VindexDef {
        name: name(alloc, "num")?,
        kind: VindexKind::Primary(Vindex::Numeric),
    })
}

fn commerce(alloc: Global, files: &Files) -> Result<KeyspaceParts, Fail> {
    let vindexes = vec![in alloc; corder_order(alloc, files)?, num(alloc)?]?;
    let tables = vec![in alloc; listed(alloc, "corder", files.corder_vindexes)?]?;
    Ok(KeyspaceParts {
        name: name(alloc, "commerce")?,
        ring: ring(alloc, &["-40", "40-80", "80-c0", "c0-"])?,
        vschema: vschema(alloc, true, vindexes, tables),
        tables: Items::from_vec(vec![in alloc; corder(alloc, files.corder_key)?]?),
    })
}

fn product(alloc: Global, files: &Files) -> Result<KeyspaceParts, Fail> {
    let mut tables = vec![in alloc; listed(alloc, "corder_order_idx", files.product_vindexes)?]?;
    if files.product_alone {
        tables.push(listed(alloc, "alone", &[])?)?;
    }
    let vindexes = vec![in alloc; num(alloc)?]?;
    Ok(KeyspaceParts {
        name: name(alloc, "product")?,
        ring: ring(alloc, files.product_ranges)?,
        vschema: vschema(alloc, false, vindexes, tables),
        tables: Items::from_vec(vec![in alloc; corder_order_idx(alloc)?]?),
    })
}

pub(crate) fn of_files(alloc: Global, files: &Files) -> Result<Catalog, Fail> {
    let parts = vec![in alloc; commerce(alloc, files)?, product(alloc, files)?]?;
    Ok(Catalog::build(alloc, parts)?)
}

// A catalog of this many keyspaces, each of them without tables.
pub(crate) fn empty_keyspaces(
    alloc: Global,
    count: usize,
    ranges: &[&str],
) -> Result<Catalog, Fail> {
    let mut parts = Vec::new(alloc);
    for _ in 0..count {
        parts.push(KeyspaceParts {
            name: name(alloc, "empty")?,
            ring: ring(alloc, ranges)?,
            vschema: vschema(alloc, true, Vec::new(alloc), Vec::new(alloc)),
            tables: Items::new(alloc),
        })?;
    }
    Ok(Catalog::build(alloc, parts)?)
}

// A keyspace that isn't sharded with this many tables, all of one name.
pub(crate) fn many_tables(alloc: Global, count: usize) -> Result<Catalog, Fail> {
    let mut tables = Vec::new(alloc);
    for _ in 0..count {
        tables.push(corder_order_idx(alloc)?)?;
    }
    let part = KeyspaceParts {
        name: name(alloc, "product")?,
        ring: ring(alloc, &["-"])?,
        vschema: vschema(alloc, false, Vec::new(alloc), Vec::new(alloc)),
        tables: Items::from_vec(tables),
    };
    Ok(Catalog::build(alloc, vec![in alloc; part]?)?)
}
