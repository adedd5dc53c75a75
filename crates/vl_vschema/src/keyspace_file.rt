use crate::file_name::FileName;
use vl_values::bytes::Bytes;
use vl_values::items::Items;

/// A keyspace as the catalog file has it.
#[derive(Drop)]
pub struct KeyspaceFile {
    pub name: Bytes,
    /// The texts of the key ranges of its shards.
    pub shards: Items<Bytes>,
    /// The name of its VSchema file.
    pub vschema: FileName,
    /// The name of its schema file.
    pub schema: FileName,
}
