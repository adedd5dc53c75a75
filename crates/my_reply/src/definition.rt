use crate::fixed_fields::FixedFields;

/// The definition of a column, whose texts stand in the bytes that were read.
#[derive(Clone, Copy)]
pub struct Definition<'a> {
    pub catalog: &'a [u8],
    pub schema: &'a [u8],
    pub table: &'a [u8],
    pub table_behind: &'a [u8],
    pub name: &'a [u8],
    pub name_behind: &'a [u8],
    pub fixed: FixedFields,
    pub decimals: u8,
}
