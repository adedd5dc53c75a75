ghost use Rattle.std.specs.Prelude.{◌≡◌, IfOk};
ghost use Rattle.vl_values.specs.Value.{is_null, text_of_value};

use crate::bytes::Bytes;
use std::alloc::{AllocError, Global};

/// A value of a column: NULL, a number, or bytes of a text or a binary string.
#[derive(Debug, Drop)]
pub enum Value {
    Null,
    Int(i64),
    Uint(u64),
    Bytes(Bytes),
}

impl Value {
    /// Whether it is NULL.
    pub fn is_null(&self) -> bool
        ensures { result ≡ is_null self.now }
    {
        matches!(self, Value::Null)
    }

    /// A copy. `AllocError` where memory was refused.
    pub fn copy(&self, alloc: Global) -> Result<Value, AllocError>
        ensures { IfOk result (λ v. v ≡ self.now) }
    {
        match self {
            Value::Null => Ok(Value::Null),
            Value::Int(n) => Ok(Value::Int(*n)),
            Value::Uint(n) => Ok(Value::Uint(*n)),
            Value::Bytes(bytes) => match bytes.copy(alloc) {
                Ok(bytes) => Ok(Value::Bytes(bytes)),
                Err(error) => Err(error),
            },
        }
    }
}

/// The text of a value: a number in decimal, bytes as they are, and no bytes for NULL.
pub fn text_of(alloc: Global, value: &Value) -> Result<Bytes, AllocError>
    ensures { IfOk result (λ text. text ≡ text_of_value value.now) }
{
    match value {
        Value::Null => Ok(Bytes::from_vec(Vec::new(alloc))),
        Value::Int(n) => {
            let text = format!(in alloc; "{n}")?;
            Ok(Bytes::from_vec(text.into_bytes()))
        }
        Value::Uint(n) => {
            let text = format!(in alloc; "{n}")?;
            Ok(Bytes::from_vec(text.into_bytes()))
        }
        Value::Bytes(bytes) => bytes.copy(alloc),
    }
}
