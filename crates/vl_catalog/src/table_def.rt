use crate::column::Column;
use vl_values::bytes::Bytes;
use vl_values::items::Items;

/// A table of a keyspace's schema file.
#[derive(Drop)]
pub struct TableDef {
    pub name: Bytes,
    pub columns: Items<Column>,
    /// The names of the primary key's columns, none where the table has no primary key.
    pub key: Items<Bytes>,
    /// The paths of what the statement has besides, behind the file's name.
    pub ignored: Items<Bytes>,
}
