use crate::column_options::ColumnOptions;
use crate::declared_type::DeclaredType;
use vl_values::bytes::Bytes;

/// A column as it is written.
#[derive(Drop)]
pub struct ColumnPart {
    pub name: Bytes,
    pub ty: DeclaredType,
    pub options: ColumnOptions,
}
