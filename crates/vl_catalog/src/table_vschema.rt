use crate::column_vindex::ColumnVindex;
use vl_values::bytes::Bytes;
use vl_values::items::Items;

/// A table of a keyspace's VSchema.
#[derive(Drop)]
pub struct TableVschema {
    pub name: Bytes,
    pub column_vindexes: Items<ColumnVindex>,
}
