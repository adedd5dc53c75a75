ghost use Rattle.std.specs.Prelude.{◌≡◌};

use std::marker::Model;

/// The bytes that a packet carries. Contracts see them as a list.
#[derive(Drop)]
pub struct Payload {
    bytes: Vec<u8>,
}

impl Model for Payload {
    ghost use Rattle.std.specs.Prelude.{List, ℕ};

    ghost Value = { List ℕ };

    ghost view = { λ p. p.bytes.items };
}

impl Payload {
    /// The payload of these bytes. It takes no memory.
    pub fn from_vec(bytes: Vec<u8>) -> Payload
        ensures { result ≡ bytes.items }
    {
        Payload { bytes }
    }

    /// The bytes, given back as they lie. It takes no memory.
    pub fn into_vec(self) -> Vec<u8>
        ensures { result.items ≡ self }
    {
        self.bytes
    }

    /// The bytes of the payload.
    pub fn as_slice(&self) -> &[u8]
        ensures { result.now ≡ self.now }
    {
        self.bytes.as_slice()
    }
}
