ghost use Rattle.std.specs.Prelude.{◌≡◌, ◌+◌, ◌≤◌, [], ◌++◌, length, IfOk};

use std::alloc::{AllocError, Global};
use std::marker::Model;

/// The bytes of the longest OK or ERR packet: a header of 4 bytes, then an ERR with its mark, code, `#`
/// and state, and a text of 512 bytes.
pub(crate) const ROOM: usize = 525;

/// Room for one OK or ERR packet, which is reserved when it is made. Contracts see the bytes in it.
#[derive(Drop)]
pub struct ShortBuf {
    bytes: Vec<u8>,
}

impl Model for ShortBuf {
    ghost use Rattle.std.specs.Prelude.{ℕ, List, ◌≤◌, vec_capacity};

    ghost Value = { List ℕ };

    ghost view = { λ b. b.bytes.items };

    ghost invariant = { λ b. 525 ≤ vec_capacity b.bytes };
}

impl ShortBuf {
    /// An empty buffer.
    pub fn new(alloc: Global) -> Result<ShortBuf, AllocError>
        ensures { IfOk result (λ buf. buf ≡ []) }
    {
        Ok(ShortBuf {
            bytes: Vec::with_capacity(alloc, ROOM)?,
        })
    }

    /// The bytes that were put in so far.
    pub fn as_slice(&self) -> &[u8]
        ensures { result.now ≡ self.now }
    {
        self.bytes.as_slice()
    }

    /// Gives the bytes, with no copy.
    pub(crate) fn into_vec(self) -> Vec<u8>
        ensures { result.items ≡ self }
    {
        let ShortBuf { bytes } = self;
        bytes
    }

    pub(crate) fn clear(&mut self)
        ensures { self.new ≡ [] }
    {
        self.bytes.clear();
    }

    /// Adds these bytes. The room was reserved, so no memory is wanted.
    pub(crate) fn push(&mut self, bytes: &[u8])
        requires { length self.old + length bytes.now ≤ 525 }
        ensures { self.new ≡ self.old ++ bytes.now }
    {
        let Ok(()) = self.bytes.extend_from_slice(bytes) else {
            unreachable!()
        };
    }
}
