use std::alloc::{AllocError, Global};
use vl_values::bytes::Bytes;
use vl_values::col_type::ColType;
use vl_values::try_copy::TryCopy;

/// A column of a table.
#[derive(Drop)]
pub struct Column {
    pub name: Bytes,
    pub ty: ColType,
    /// Whether the column may hold NULL.
    pub nullable: bool,
}

impl TryCopy for Column {
    fn try_copy(&self, alloc: Global) -> Result<Column, AllocError> {
        Ok(Column {
            name: self.name.copy(alloc)?,
            ty: self.ty,
            nullable: self.nullable,
        })
    }
}
