use vl_values::bytes::Bytes;
use vl_values::items::Items;

/// A lookup vindex of a keyspace's VSchema: a table maps values of the owner's column to keyspace ids.
#[derive(Drop)]
pub struct LookupDef {
    /// `consistent_lookup_unique`, else `consistent_lookup`.
    pub unique: bool,
    /// The table whose column has the values.
    pub owner: Bytes,
    /// The keyspace of the lookup table, where it is named.
    pub keyspace: Option<Bytes>,
    pub table: Bytes,
    /// The lookup table's columns for the values.
    pub from: Items<Bytes>,
    /// The lookup table's column for the keyspace id.
    pub to: Bytes,
    pub ignore_nulls: bool,
    pub write_only: bool,
}
