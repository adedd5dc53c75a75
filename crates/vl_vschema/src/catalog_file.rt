ghost use Rattle.std.specs.Prelude.{◌≡◌, [], codes, map, IfOk, IfErr};
ghost use Rattle.serde_json.specs.Data.{Data};
ghost use Rattle.serde_json.specs.View.{view};
ghost use Rattle.vl_vschema.specs.CatalogFile.{catalog_breaks, keyspace_of, keyspaces_of};
ghost use Rattle.vl_vschema.specs.Document.{IsJson, IsLeastOf, IsRefusal, IsSound};
ghost use Rattle.vl_vschema.specs.declared.vschema_rule.VschemaRule.TheVariants.{MemberKind};
ghost use Rattle.vl_vschema.specs.Vschema.{items_named};

use crate::catalog_kinds::CatalogKinds;
use crate::file_name::FileName;
use crate::finder::Finder;
use crate::json::parse;
use crate::keyspace_file::KeyspaceFile;
use crate::kinds::InObject;
use crate::least::Least;
use crate::member::text_named;
use crate::path::Path;
use crate::table_vschema::texts;
use crate::taken_names::TakenNames;
use crate::vschema_fault::VschemaFault;
use crate::vschema_rule::VschemaRule;
use crate::walk::look_at;
use serde_json::Value;
use std::alloc::{AllocError, Global};
use vl_values::bytes::Bytes;
use vl_values::items::Items;

// The least path that breaks V1.
fn least_breaking(alloc: Global, file: &Value) -> Result<Option<Path>, AllocError>
    ensures { IfOk result (IsLeastOf (catalog_breaks (view file.now) MemberKind)) }
{
    let root = Path::root(alloc);
    let mut least = Least::new();
    InObject(CatalogKinds).find(alloc, &root, file, &mut least)?;
    look_at(&TakenNames, alloc, &root, file, "keyspaces", &mut least)?;
    Ok(least.into_path())
}

fn keyspace_file(alloc: Global, keyspace: &Value) -> Result<KeyspaceFile, AllocError>
    ensures { IfOk result (λ found. found ≡ keyspace_of (view keyspace.now)) }
{
    Ok(KeyspaceFile {
        name: Bytes::from_slice(alloc, text_named(keyspace, "name").as_bytes())?,
        shards: Items::from_vec(texts(alloc, keyspace, "shards")?),
        vschema: FileName::from_str(alloc, text_named(keyspace, "vschema"))?,
        schema: FileName::from_str(alloc, text_named(keyspace, "schema"))?,
    })
}

fn keyspace_files(alloc: Global, file: &Value) -> Result<Vec<KeyspaceFile>, AllocError>
    ensures { IfOk result (λ found. found.items ≡ keyspaces_of (view file.now)) }
{
    let mut found = Vec::new(alloc);
    let Some(list) = file.get("keyspaces") else {
        return Ok(found);
    };
    let Some(items) = list.as_array() else {
        return Ok(found);
    };
    for item in items.iter() {
        found.push(keyspace_file(alloc, item)?)?;
    }
    Ok(found)
}

/// Reads a catalog file: its keyspaces, in its order. `Broken` has V1 and the least path that breaks
/// it; `Memory` may come at any file.
pub fn read_catalog(alloc: Global, bytes: &[u8]) -> Result<Items<KeyspaceFile>, VschemaFault>
    ensures ok { IfOk result (λ keyspaces. (d : Data) × IsJson bytes.now d
        × IsSound (catalog_breaks d) × (keyspaces ≡ keyspaces_of d)) }
    ensures err { IfErr result (IsRefusal catalog_breaks bytes.now) }
{
    let file = match parse(alloc, bytes) {
        Ok(file) => file,
        Err(fault) => return Err(fault),
    };
    match least_breaking(alloc, &file) {
        Ok(None) => {}
        Ok(Some(path)) => {
            return Err(VschemaFault::Broken {
                path: path.into_bytes(),
                rule: VschemaRule::MemberKind,
            });
        }
        Err(_) => return Err(VschemaFault::Memory),
    }
    match keyspace_files(alloc, &file) {
        Ok(keyspaces) => Ok(Items::from_vec(keyspaces)),
        Err(_) => Err(VschemaFault::Memory),
    }
}
