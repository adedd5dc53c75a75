ghost use Rattle.std.specs.Prelude.{◌≡◌, IfOk};

use crate::bytes::Bytes;
use crate::key::Key;
use crate::row::Row;
use crate::value::Value;
use std::alloc::{AllocError, Global};

/// A value that can be copied where memory allows it; the copy equals its source.
pub trait TryCopy {
    fn try_copy(&self, alloc: Global) -> Result<Self, AllocError>
        ensures { IfOk result (λ copy. copy ≡ self.now) };
}

impl TryCopy for Bytes {
    fn try_copy(&self, alloc: Global) -> Result<Bytes, AllocError> {
        self.copy(alloc)
    }
}

impl TryCopy for Value {
    fn try_copy(&self, alloc: Global) -> Result<Value, AllocError> {
        self.copy(alloc)
    }
}

impl TryCopy for Row {
    fn try_copy(&self, alloc: Global) -> Result<Row, AllocError> {
        self.copy(alloc)
    }
}

impl TryCopy for Key {
    fn try_copy(&self, alloc: Global) -> Result<Key, AllocError> {
        self.copy(alloc)
    }
}
