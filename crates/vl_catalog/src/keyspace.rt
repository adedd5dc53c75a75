use std::alloc::{AllocError, Global};
use vl_values::bytes::Bytes;
use vl_values::try_copy::TryCopy;

/// A keyspace of a catalog. Its ring has the same place in the catalog's list of rings.
#[derive(Drop)]
pub struct Keyspace {
    pub name: Bytes,
    pub sharded: bool,
}

impl TryCopy for Keyspace {
    fn try_copy(&self, alloc: Global) -> Result<Keyspace, AllocError> {
        Ok(Keyspace {
            name: self.name.copy(alloc)?,
            sharded: self.sharded,
        })
    }
}
