// V1 of a catalog file: a member has the wrong JSON kind or is missing, or two keyspaces have one name.

use crate::finder::Finder;
use crate::kinds::{InList, InObject, NotText};
use crate::member::has;
use crate::path::Path;
use crate::path_sink::PathSink;
use crate::walk::{EachItem, look_at};
use serde_json::Value;
use std::alloc::{AllocError, Global};

#[derive(Drop)]
struct KeyspaceKinds;

impl Finder for KeyspaceKinds {
    ghost use Rattle.vl_vschema.specs.CatalogFile.{keyspace_kinds};

    ghost found = { λ _. keyspace_kinds };

    fn find<S: PathSink>(
        &self,
        alloc: Global,
        path: &Path,
        keyspace: &Value,
        sink: &mut S,
    ) -> Result<(), AllocError> {
        let named = has(keyspace, "name") && has(keyspace, "shards");
        if !(named && has(keyspace, "vschema") && has(keyspace, "schema")) {
            sink.note(alloc, path)?;
        }
        let shards = InList(EachItem(NotText));
        look_at(&NotText, alloc, path, keyspace, "name", sink)?;
        look_at(&shards, alloc, path, keyspace, "shards", sink)?;
        look_at(&NotText, alloc, path, keyspace, "vschema", sink)?;
        look_at(&NotText, alloc, path, keyspace, "schema", sink)
    }
}

/// Finds the members of an object that have the wrong kind, and objects where one is missing.
#[derive(Drop)]
pub(crate) struct CatalogKinds;

impl Finder for CatalogKinds {
    ghost use Rattle.vl_vschema.specs.CatalogFile.{catalog_kinds};

    ghost found = { λ _. catalog_kinds };

    fn find<S: PathSink>(
        &self,
        alloc: Global,
        path: &Path,
        file: &Value,
        sink: &mut S,
    ) -> Result<(), AllocError> {
        if !has(file, "keyspaces") {
            sink.note(alloc, path)?;
        }
        let keyspaces = InList(EachItem(InObject(KeyspaceKinds)));
        look_at(&keyspaces, alloc, path, file, "keyspaces", sink)
    }
}
