use crate::fixed_fields::FixedFields;
use vl_values::bytes::Bytes;

/// The definition of a column as a client reads it: `table_behind` and `name_behind` are those behind an
/// alias.
#[derive(Drop)]
pub struct WireColumn {
    pub catalog: Bytes,
    pub schema: Bytes,
    pub table: Bytes,
    pub table_behind: Bytes,
    pub name: Bytes,
    pub name_behind: Bytes,
    pub fixed: FixedFields,
    pub decimals: u8,
}
