use std::alloc::{AllocError, Global};
use vl_values::bytes::Bytes;
use vl_values::items::Items;
use vl_values::try_copy::TryCopy;

/// A column vindex of a table, as the VSchema has it: the names of its columns, and of its vindex.
#[derive(Drop)]
pub struct ColumnVindex {
    pub columns: Items<Bytes>,
    pub vindex: Bytes,
}

impl TryCopy for ColumnVindex {
    fn try_copy(&self, alloc: Global) -> Result<ColumnVindex, AllocError> {
        Ok(ColumnVindex {
            columns: self.columns.try_copy(alloc)?,
            vindex: self.vindex.copy(alloc)?,
        })
    }
}
