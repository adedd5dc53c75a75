ghost use Rattle.std.specs.Prelude.{◌≡◌, ◌≤◌, List, ℕ, length, take};

use std::marker::Model;

/// A keyspace id: a byte string, of at most 16 bytes where a primary vindex gives it.
#[derive(Drop)]
pub struct Ksid {
    bytes: [u8; 16],
    len: usize,
}

impl Model for Ksid {
    ghost Value = { List ℕ };

    ghost view = { λ ksid. take ksid.len ksid.bytes };

    ghost invariant = { λ ksid. ksid.len ≤ 16 };
}

impl Ksid {
    pub(crate) fn of_eight(eight: [u8; 8]) -> Ksid
        ensures { result ≡ eight }
    {
        let mut bytes = [0; 16];
        bytes[..8].copy_from_slice(&eight);
        Ksid { bytes, len: 8 }
    }

    pub(crate) fn of_sixteen(bytes: [u8; 16]) -> Ksid
        ensures { result ≡ bytes }
    {
        Ksid { bytes, len: 16 }
    }

    /// The bytes of the keyspace id.
    pub fn as_slice(&self) -> &[u8]
        ensures value { result.now ≡ self.now }
        ensures within { length self.now ≤ 16 }
    {
        &self.bytes[..self.len]
    }
}
