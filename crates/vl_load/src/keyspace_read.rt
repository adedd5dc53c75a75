use vl_catalog::{KeyspaceVschema, TableDef};
use vl_values::bytes::Bytes;
use vl_values::items::Items;
use vl_vschema::KeyspaceFile;

/// A keyspace of the catalog file, with what its two files mean and the names by which they were loaded.
#[derive(Drop)]
pub(crate) struct KeyspaceRead {
    pub(crate) keyspace: KeyspaceFile,
    pub(crate) vschema_file: Bytes,
    pub(crate) vschema: KeyspaceVschema,
    pub(crate) schema_file: Bytes,
    pub(crate) tables: Items<TableDef>,
}
