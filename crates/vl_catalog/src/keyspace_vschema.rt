use crate::table_vschema::TableVschema;
use crate::vindex_def::VindexDef;
use vl_values::bytes::Bytes;
use vl_values::items::Items;

/// What a keyspace's VSchema file says. Its reader lists vindexes and tables by the bytes of their
/// names, each name once.
#[derive(Drop)]
pub struct KeyspaceVschema {
    pub sharded: bool,
    pub vindexes: Items<VindexDef>,
    pub tables: Items<TableVschema>,
    /// The paths of what the file has besides.
    pub ignored: Items<Bytes>,
}
