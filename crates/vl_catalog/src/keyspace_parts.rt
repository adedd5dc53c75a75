use crate::keyspace_vschema::KeyspaceVschema;
use crate::table_def::TableDef;
use vl_values::bytes::Bytes;
use vl_values::items::Items;
use vl_vindex::Ring;

/// What the files of a catalog say of one keyspace.
#[derive(Drop)]
pub struct KeyspaceParts {
    pub name: Bytes,
    pub ring: Ring,
    pub vschema: KeyspaceVschema,
    pub tables: Items<TableDef>,
}
