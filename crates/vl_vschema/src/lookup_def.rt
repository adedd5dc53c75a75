ghost use Rattle.std.specs.Prelude.{◌≡◌, IfOk};
ghost use Rattle.serde_json.specs.View.{view};
ghost use Rattle.vl_vschema.specs.Vschema.{keyspace_in, table_in, names_in, lookup_of};

use crate::member::{has_type, param, text_named};
use crate::trimmed::trimmed;
use serde_json::Value;
use std::alloc::{AllocError, Global};
use vl_catalog::LookupDef;
use vl_values::bytes::Bytes;
use vl_values::items::Items;

// The keyspace that the name of a table begins with, where it names one.
fn keyspace_of(alloc: Global, table: &str) -> Result<Option<Bytes>, AllocError>
    ensures { IfOk result (λ keyspace. keyspace ≡ keyspace_in table.now) }
{
    let Some((keyspace, _)) = table.split_once('.') else {
        return Ok(None);
    };
    let keyspace = Bytes::from_slice(alloc, keyspace.as_bytes())?;
    Ok(Some(keyspace))
}

fn table_of(alloc: Global, table: &str) -> Result<Bytes, AllocError>
    ensures { IfOk result (λ name. name ≡ table_in table.now) }
{
    let name = match table.split_once('.') {
        Some((_, name)) => name,
        None => table,
    };
    Bytes::from_slice(alloc, name.as_bytes())
}

// The names of columns that commas separate.
fn column_names(alloc: Global, text: &str) -> Result<Vec<Bytes>, AllocError>
    ensures { IfOk result (λ names. names.items ≡ names_in text.now) }
{
    let mut names = Vec::new(alloc);
    for part in text.split(',') {
        names.push(Bytes::from_slice(alloc, trimmed(part.as_bytes()))?)?;
    }
    Ok(names)
}

/// What a lookup says.
pub(crate) fn lookup_def(alloc: Global, vindex: &Value) -> Result<LookupDef, AllocError>
    ensures { IfOk result (λ def. def ≡ lookup_of (view vindex.now)) }
{
    let table = param(vindex, "table");
    Ok(LookupDef {
        unique: has_type(vindex, "consistent_lookup_unique"),
        owner: Bytes::from_slice(alloc, text_named(vindex, "owner").as_bytes())?,
        keyspace: keyspace_of(alloc, table)?,
        table: table_of(alloc, table)?,
        from: Items::from_vec(column_names(alloc, param(vindex, "from"))?),
        to: Bytes::from_slice(alloc, param(vindex, "to").as_bytes())?,
        ignore_nulls: param(vindex, "ignore_nulls") == "true",
        write_only: param(vindex, "write_only") == "true",
    })
}
