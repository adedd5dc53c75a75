use crate::bytes::Bytes;
use crate::col_type::ColType;

/// A column of a result set. A column that no table has, as that of a count, has an empty schema and
/// an empty table. The flags are those of a MySQL column definition: 1 for a column that isn't NULL,
/// 2 for one of the primary key, 32 for an unsigned number.
#[derive(Debug, Drop)]
pub struct ReplyColumn {
    pub schema: Bytes,
    pub table: Bytes,
    pub name: Bytes,
    pub ty: ColType,
    pub flags: u16,
}
