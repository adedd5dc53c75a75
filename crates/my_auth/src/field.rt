ghost use Rattle.std.specs.Prelude.{◌≡◌, IfOk};

use std::alloc::{AllocError, Global};
use std::marker::Model;

/// The bytes of a name or of a field in a payload. Contracts see them as a list.
#[derive(Debug, Drop)]
pub struct Field {
    bytes: Vec<u8>,
}

impl Model for Field {
    ghost use Rattle.std.specs.Prelude.{List, ℕ};

    ghost Value = { List ℕ };

    ghost view = { λ f. f.bytes.items };
}

impl Field {
    /// Takes the vector over, with no copy.
    pub fn from_vec(bytes: Vec<u8>) -> Field
        ensures { result ≡ bytes.items }
    {
        Field { bytes }
    }

    /// A copy of the bytes.
    pub fn from_slice(alloc: Global, bytes: &[u8]) -> Result<Field, AllocError>
        ensures { IfOk result (λ field. field ≡ bytes.now) }
    {
        let bytes = Vec::from_slice(alloc, bytes)?;
        Ok(Field { bytes })
    }

    /// Gives the vector back, with no copy.
    pub fn into_vec(self) -> Vec<u8>
        ensures { result.items ≡ self }
    {
        let Field { bytes } = self;
        bytes
    }

    /// The bytes of the field.
    pub fn as_slice(&self) -> &[u8]
        ensures { result.now ≡ self.now }
    {
        self.bytes.as_slice()
    }
}
