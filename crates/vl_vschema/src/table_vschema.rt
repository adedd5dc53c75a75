ghost use Rattle.std.specs.Prelude.{◌≡◌, codes, map, IfOk};
ghost use Rattle.serde_json.specs.View.{view};
ghost use Rattle.vl_vschema.specs.Vschema.{text_of as own_text, columns_of, column_vindex_of, table_of, items_named, members_named, IsByName};

use crate::member::{text_named, text_of};
use serde_json::Value;
use std::alloc::{AllocError, Global};
use vl_catalog::{ColumnVindex, TableVschema};
use vl_values::bytes::Bytes;
use vl_values::items::Items;

/// The texts of a list, where there is one of this name.
pub(crate) fn texts(alloc: Global, value: &Value, name: &str) -> Result<Vec<Bytes>, AllocError>
    ensures { IfOk result (λ texts. texts.items
        ≡ map own_text (items_named name.now (view value.now))) }
{
    let mut texts = Vec::new(alloc);
    let Some(list) = value.get(name) else {
        return Ok(texts);
    };
    let Some(items) = list.as_array() else {
        return Ok(texts);
    };
    for item in items.iter() {
        let text = Bytes::from_slice(alloc, text_of(item).as_bytes())?;
        texts.push(text)?;
    }
    Ok(texts)
}

// The one column, or all of them.
fn columns(alloc: Global, column_vindex: &Value) -> Result<Vec<Bytes>, AllocError>
    ensures { IfOk result (λ columns. columns.items ≡ columns_of (view column_vindex.now)) }
{
    let Some(column) = column_vindex.get("column") else {
        return texts(alloc, column_vindex, "columns");
    };
    let mut columns = Vec::new(alloc);
    columns.push(Bytes::from_slice(alloc, text_of(column).as_bytes())?)?;
    Ok(columns)
}

fn column_vindex(alloc: Global, value: &Value) -> Result<ColumnVindex, AllocError>
    ensures { IfOk result (λ column_vindex. column_vindex ≡ column_vindex_of (view value.now)) }
{
    Ok(ColumnVindex {
        columns: Items::from_vec(columns(alloc, value)?),
        vindex: Bytes::from_slice(alloc, text_named(value, "name").as_bytes())?,
    })
}

fn column_vindexes(alloc: Global, table: &Value) -> Result<Vec<ColumnVindex>, AllocError>
    ensures { IfOk result (λ found. found.items
        ≡ map column_vindex_of (items_named (codes "column_vindexes") (view table.now))) }
{
    let mut found = Vec::new(alloc);
    let Some(list) = table.get("column_vindexes") else {
        return Ok(found);
    };
    let Some(items) = list.as_array() else {
        return Ok(found);
    };
    for item in items.iter() {
        found.push(column_vindex(alloc, item)?)?;
    }
    Ok(found)
}

fn table_vschema(alloc: Global, name: &str, table: &Value) -> Result<TableVschema, AllocError>
    ensures { IfOk result (λ found. found ≡ table_of (name.now, view table.now)) }
{
    Ok(TableVschema {
        name: Bytes::from_slice(alloc, name.as_bytes())?,
        column_vindexes: Items::from_vec(column_vindexes(alloc, table)?),
    })
}

/// The tables of a keyspace, by the bytes of their names.
pub(crate) fn tables(alloc: Global, file: &Value) -> Result<Vec<TableVschema>, AllocError>
    ensures value { IfOk result (λ found. found.items
        ≡ map table_of (members_named (codes "tables") (view file.now))) }
    ensures by_name { IfOk result (λ found. IsByName (map (λ table. table.name) found.items)) }
{
    let mut found = Vec::new(alloc);
    let Some(tables) = file.get("tables") else {
        return Ok(found);
    };
    let Some(members) = tables.as_object() else {
        return Ok(found);
    };
    for (name, table) in members.iter() {
        let table = table_vschema(alloc, name.as_str(), table)?;
        found.push(table)?;
    }
    Ok(found)
}
