use crate::TableNo;
use crate::row::Row;
use std::alloc::{AllocError, Global};

/// A key of a table: the table's number and the values of the primary key columns, in their order.
/// Keys are ordered by table, then by these values.
#[derive(Debug, PartialEq, Eq, PartialOrd, Ord, Drop)]
pub struct Key {
    pub table: TableNo,
    pub pk: Row,
}

impl Key {
    ghost use Rattle.std.specs.Prelude.{◌≡◌, IfOk};

    /// A copy. `AllocError` where memory was refused.
    pub fn copy(&self, alloc: Global) -> Result<Key, AllocError>
        ensures { IfOk result (λ key. key ≡ self.now) }
    {
        let pk = self.pk.copy(alloc)?;
        Ok(Key {
            table: self.table,
            pk,
        })
    }
}
