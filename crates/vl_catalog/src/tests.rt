use crate::catalog_a::{
    column, column_vindex, one_name, primary_def, table_def, table_vschema, two_names,
};
use crate::{
    Catalog, ColumnVindex, KeyspaceParts, KeyspaceVschema, Lookup, LookupDef, TableDef,
    TableVschema, Vindex, VindexDef, VindexKind,
};
use std::alloc::{AllocError, Global};
use std::test::Fail;
use vl_values::bytes::Bytes;
use vl_values::col_type::ColType;
use vl_values::items::Items;
use vl_values::value::Value;
use vl_vindex::{KeyRange, Ring};

const HALF: u64 = 0x8000_0000_0000_0000;

// The place of a row that has this value in its first column.
fn place(alloc: Global, catalog: &Catalog, table: u32, value: Value) -> Result<Option<u32>, Fail> {
    let Some(_) = catalog.shard_count() else {
        return Err("shards that can be counted".into());
    };
    let row = vec![in alloc; value]?;
    Ok(catalog.place_of(table, &row))
}

#[test]
fn numbers_of_the_built_in_catalog_have_their_places(rt: HostRuntime) -> Result<(), Fail> {
    let catalog = Catalog::a(rt.alloc())?.copy(rt.alloc())?;
    assert_eq!(rt; catalog.shard_count(), Some(2));
    let table = [
        (0, 0, Some(0)),
        (0, HALF - 1, Some(0)),
        (0, HALF, Some(1)),
        (1, 3, Some(0)),
        (5, 0, None),
    ];
    for (number, value, want) in table {
        let got = place(rt.alloc(), &catalog, number, Value::Uint(value))?;
        assert_eq!(rt; got, want);
    }
    Ok(())
}

// The MD5 digest of `abc` begins with 0x90, and that of `-1` with 0x6b.
#[test]
fn other_values_of_the_built_in_catalog_have_theirs(rt: HostRuntime) -> Result<(), Fail> {
    let catalog = Catalog::a(rt.alloc())?;
    let abc = Value::Bytes(Bytes::from_slice(rt.alloc(), b"abc")?);
    assert_eq!(rt; place(rt.alloc(), &catalog, 4, abc)?, Some(1));
    assert_eq!(rt; place(rt.alloc(), &catalog, 4, Value::Int(-1))?, Some(0));
    assert_eq!(rt; place(rt.alloc(), &catalog, 1, Value::Int(3))?, Some(0));
    assert_eq!(rt; place(rt.alloc(), &catalog, 1, Value::Int(-1))?, None);
    assert_eq!(rt; place(rt.alloc(), &catalog, 2, Value::Null)?, None);
    assert_eq!(rt; catalog.ksid_of(0, &[]).is_some(), false);
    Ok(())
}

fn ring(alloc: Global, texts: &[&str]) -> Result<Ring, Fail> {
    let mut ranges = Vec::new(alloc);
    for text in texts {
        ranges.push(KeyRange::read(text.as_bytes()).ok().ok_or("a range")?)?;
    }
    match Ring::new(ranges) {
        Ok(ring) => Ok(ring),
        Err(_) => Err("a ring".into()),
    }
}

fn keyspace(
    alloc: Global,
    name: &[u8],
    ring: Ring,
    sharded: bool,
    vindexes: Vec<VindexDef>,
    listed: Vec<TableVschema>,
    tables: Vec<TableDef>,
) -> Result<KeyspaceParts, AllocError> {
    let vschema = KeyspaceVschema {
        sharded,
        vindexes: Items::from_vec(vindexes),
        tables: Items::from_vec(listed),
        ignored: Items::new(alloc),
    };
    Ok(KeyspaceParts {
        name: Bytes::from_slice(alloc, name)?,
        ring,
        vschema,
        tables: Items::from_vec(tables),
    })
}

// A lookup of corder to a table of keyspace product.
fn lookup(
    alloc: Global,
    name: &[u8],
    unique: bool,
    table: &[u8],
    from: Items<Bytes>,
) -> Result<VindexDef, AllocError> {
    let def = LookupDef {
        unique,
        owner: Bytes::from_slice(alloc, b"corder")?,
        keyspace: Some(Bytes::from_slice(alloc, b"product")?),
        table: Bytes::from_slice(alloc, table)?,
        from,
        to: Bytes::from_slice(alloc, b"keyspace_id")?,
        ignore_nulls: false,
        write_only: false,
    };
    Ok(VindexDef {
        name: Bytes::from_slice(alloc, name)?,
        kind: VindexKind::Lookup(def),
    })
}

// The table corder, as the schema file has it.
fn corder(alloc: Global) -> Result<TableDef, AllocError> {
    let customer = column(alloc, b"customer_id", ColType::BigUint, false)?;
    let order = column(alloc, b"order_id", ColType::BigUint, false)?;
    let sku = column(alloc, b"sku", ColType::VarChar(64), true)?;
    let key = two_names(alloc, b"customer_id", b"order_id")?;
    table_def(alloc, b"corder", vec![in alloc; customer, order, sku]?, key)
}

// A keyspace commerce of four shards with the table corder.
fn commerce(
    alloc: Global,
    vindexes: Vec<VindexDef>,
    second: ColumnVindex,
) -> Result<KeyspaceParts, Fail> {
    let first = column_vindex(alloc, b"customer_id", b"num")?;
    let listed = table_vschema(alloc, b"corder", vec![in alloc; first, second]?)?;
    let listed = vec![in alloc; listed]?;
    let tables = vec![in alloc; corder(alloc)?]?;
    let ring = ring(alloc, &["-40", "40-80", "80-c0", "c0-"])?;
    Ok(keyspace(alloc, b"commerce", ring, true, vindexes, listed, tables)?)
}

fn corder_order_idx(alloc: Global) -> Result<TableDef, AllocError> {
    let order = column(alloc, b"order_id", ColType::BigUint, false)?;
    let ksid = column(alloc, b"keyspace_id", ColType::VarBinary(16), true)?;
    let key = one_name(alloc, b"order_id")?;
    table_def(
        alloc,
        b"corder_order_idx",
        vec![in alloc; order, ksid]?,
        key,
    )
}

// A keyspace product of one shard with the table corder_order_idx, and one that the VSchema has alone.
fn product(alloc: Global) -> Result<KeyspaceParts, Fail> {
    let here = table_vschema(alloc, b"corder_order_idx", Vec::new(alloc))?;
    let alone = table_vschema(alloc, b"alone", Vec::new(alloc))?;
    let listed = vec![in alloc; here, alone]?;
    let tables = vec![in alloc; corder_order_idx(alloc)?]?;
    let ring = ring(alloc, &["0"])?;
    let none = Vec::new(alloc);
    Ok(keyspace(alloc, b"product", ring, false, none, listed, tables)?)
}

fn built(alloc: Global, vindexes: Vec<VindexDef>, second: ColumnVindex) -> Result<Catalog, Fail> {
    let commerce = commerce(alloc, vindexes, second)?;
    let parts = vec![in alloc; commerce, product(alloc)?]?;
    Ok(Catalog::build(alloc, parts)?)
}

fn lookup_told(alloc: Global, lookup: &Lookup) -> Result<String, Fail> {
    let owner = lookup.owner;
    let table = lookup.table;
    let column = lookup.column;
    let to = lookup.to;
    let from = lookup.from.as_slice();
    Ok(format!(in alloc; "{owner:?} {table:?} {column:?} {from:?} {to:?}; ")?)
}

fn lookups_told(alloc: Global, catalog: &Catalog) -> Result<String, Fail> {
    let mut told = String::new(alloc);
    for lookup in catalog.lookups.as_slice() {
        told.push_str(lookup_told(alloc, lookup)?.as_str())?;
    }
    Ok(told)
}

// Two keyspaces, one of them not sharded, with one lookup between them.
fn two_keyspaces(alloc: Global) -> Result<Catalog, Fail> {
    let num = primary_def(alloc, b"num", Vindex::Numeric)?;
    let from = one_name(alloc, b"order_id")?;
    let order = lookup(alloc, b"order", true, b"corder_order_idx", from)?;
    let listed = column_vindex(alloc, b"order_id", b"order")?;
    built(alloc, vec![in alloc; num, order]?, listed)
}

#[test]
fn tables_of_two_keyspaces_have_their_shards(rt: HostRuntime) -> Result<(), Fail> {
    let catalog = two_keyspaces(rt.alloc())?;
    assert_eq!(rt; catalog.shard_count(), Some(5));
    let table = [
        (0, 1, Some(0)),
        (0, HALF / 2, Some(1)),
        (0, HALF, Some(2)),
        (0, u64::MAX, Some(3)),
        (1, 1, Some(4)),
        (2, 1, Some(4)),
        (3, 1, None),
    ];
    for (number, value, want) in table {
        let got = place(rt.alloc(), &catalog, number, Value::Uint(value))?;
        assert_eq!(rt; got, want);
    }
    let told = lookups_told(rt.alloc(), &catalog)?;
    assert_eq!(rt; told.as_str(), "Some(0) Some(1) Some(1) [0] Some(1); ");
    Ok(())
}

// A lookup that isn't unique may name the owner's other key columns; one that is listed comes before
// one that isn't, and a name that stands for nothing has no number.
#[test]
fn names_of_lookups_become_numbers(rt: HostRuntime) -> Result<(), Fail> {
    let catalog = two_lookups(rt.alloc())?;
    let told = lookups_told(rt.alloc(), &catalog)?;
    assert_eq!(rt;
        told.as_str(),
        "Some(0) Some(1) Some(1) [] Some(1); Some(0) None None [] None; "
    );
    Ok(())
}

fn two_lookups(alloc: Global) -> Result<Catalog, Fail> {
    let num = primary_def(alloc, b"num", Vindex::Numeric)?;
    let from = one_name(alloc, b"order_id")?;
    let lost = lookup(alloc, b"lost", true, b"nowhere", from)?;
    let from = two_names(alloc, b"order_id", b"missing")?;
    let order = lookup(alloc, b"order", false, b"corder_order_idx", from)?;
    let listed = ColumnVindex {
        columns: two_names(alloc, b"order_id", b"customer_id")?,
        vindex: Bytes::from_slice(alloc, b"order")?,
    };
    built(alloc, vec![in alloc; lost, num, order]?, listed)
}
