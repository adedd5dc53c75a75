use vl_values::bytes::Bytes;

/// A table's name, and the keyspace's name if it stands before.
#[derive(Debug, Drop)]
pub struct TableName {
    pub keyspace: Option<Bytes>,
    pub name: Bytes,
}
