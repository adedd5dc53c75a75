ghost use Rattle.std.specs.Prelude.{◌≡◌, ◌∷◌, codes, map, IfOk};
ghost use Rattle.serde_json.specs.View.{view};
ghost use Rattle.vl_vschema.specs.Vschema.{kind_of, vindex_of, members_named, IsByName};

use crate::lookup_def::lookup_def;
use crate::member::has_type;
use serde_json::Value;
use std::alloc::{AllocError, Global};
use vl_catalog::{Vindex, VindexDef, VindexKind};
use vl_values::bytes::Bytes;

fn vindex_kind(alloc: Global, vindex: &Value) -> Result<VindexKind, AllocError>
    ensures { IfOk result (λ kind. kind ≡ kind_of (view vindex.now)) }
{
    if has_type(vindex, "numeric") {
        return Ok(VindexKind::Primary(Vindex::Numeric));
    }
    if has_type(vindex, "binary_md5") {
        return Ok(VindexKind::Primary(Vindex::BinaryMd5));
    }
    let def = lookup_def(alloc, vindex)?;
    Ok(VindexKind::Lookup(def))
}

fn vindex_def(alloc: Global, name: &str, vindex: &Value) -> Result<VindexDef, AllocError>
    ensures { IfOk result (λ def. def ≡ vindex_of (name.now, view vindex.now)) }
{
    Ok(VindexDef {
        name: Bytes::from_slice(alloc, name.as_bytes())?,
        kind: vindex_kind(alloc, vindex)?,
    })
}

/// The vindexes of a keyspace, by the bytes of their names.
pub(crate) fn vindexes(alloc: Global, file: &Value) -> Result<Vec<VindexDef>, AllocError>
    ensures value { IfOk result (λ defs. defs.items
        ≡ map vindex_of (members_named (codes "vindexes") (view file.now))) }
    ensures by_name { IfOk result (λ defs. IsByName (map (λ def. def.name) defs.items)) }
{
    let mut defs = Vec::new(alloc);
    let Some(vindexes) = file.get("vindexes") else {
        return Ok(defs);
    };
    let Some(members) = vindexes.as_object() else {
        return Ok(defs);
    };
    for (name, vindex) in members.iter() {
        let def = vindex_def(alloc, name.as_str(), vindex)?;
        defs.push(def)?;
    }
    Ok(defs)
}
