ghost use Rattle.std.specs.Prelude.{◌≡◌, ◌+◌, ◌<◌, ◌≤◌, ◌^◌, [], ◌∷◌, ◌++◌, length};
ghost use Rattle.my_packet.specs.Bytes.{header};
ghost use Rattle.my_packet.specs.Feeding.{Judges};

use crate::fault::FaultCause;
use crate::packet::LONGEST_PAYLOAD;
use std::marker::Model;

/// How many bytes a header has.
pub(crate) const HEADER_LEN: usize = 4;

/// The bytes of a header that have come.
#[derive(Drop)]
pub(crate) struct Header {
    bytes: [u8; HEADER_LEN],
    len: usize,
}

impl Model for Header {
    ghost use Rattle.std.specs.Prelude.{List, ℕ, ◌≤◌, take};

    ghost Value = { List ℕ };

    ghost view = { λ h. take h.len h.bytes };

    ghost invariant = { λ h. h.len ≤ 4 };
}

impl Header {
    pub(crate) fn new() -> Header
        ensures { result ≡ [] }
    {
        Header {
            bytes: [0; HEADER_LEN],
            len: 0,
        }
    }

    pub(crate) fn len(&self) -> usize
        ensures len { result ≡ length self.now }
        ensures most { result ≤ 4 }
    {
        self.len
    }

    fn push(&mut self, byte: u8)
        requires { length self.old < 4 }
        ensures { self.new ≡ self.old ++ byte ∷ [] }
    {
        self.bytes[self.len] = byte;
        self.len += 1;
    }

    pub(crate) fn extend(&mut self, piece: &[u8])
        requires { length self.old + length piece.now ≤ 4 }
        ensures { self.new ≡ self.old ++ piece.now }
    {
        for byte in piece {
            self.push(*byte);
        }
    }

    /// The length that a whole header announces, and its number.
    fn fields(&self) -> (u32, u8)
        requires { length self.now ≡ 4 }
        ensures bytes { self.now ≡ header result.0 result.1 }
        ensures len { result.0 < 2 ^ 24 }
    {
        let [low, middle, high, seq] = self.bytes;
        (u32::from_le_bytes([low, middle, high, 0]), seq)
    }

    /// The length that a whole header announces, where the limit and the due number allow it.
    pub(crate) fn judged(&self, due: u8) -> Result<usize, FaultCause>
        requires { length self.now ≡ 4 }
        ensures { Judges due self.now result }
    {
        let (len, got) = self.fields();
        if len as usize > LONGEST_PAYLOAD {
            return Err(FaultCause::TooLong { len });
        }
        if got != due {
            return Err(FaultCause::Order { got, due });
        }
        Ok(len as usize)
    }
}
