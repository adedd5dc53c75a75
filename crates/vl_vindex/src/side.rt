ghost use Rattle.std.specs.Prelude.{◌≡◌, ◌≢◌, ℕ, ◌*◌, ◌%◌, ◌≤◌, ◌<◌, ◌↔◌, [], List, length, take, IsTrue, Ok, Some};
ghost use Rattle.std.specs.List.{AllPass};
ghost use Rattle.hex.specs.Hex.{decode_of, encode_lower, is_hex_digit};

use std::fmt;
use std::marker::Model;

/// One side of a key range: a byte string of at most 16 bytes, in the order of keyspace ids.
#[derive(Drop)]
pub struct Side {
    bytes: [u8; 16],
    len: usize,
}

impl Model for Side {
    ghost Value = { List ℕ };

    ghost view = { λ side. take side.len side.bytes };

    ghost invariant = { λ side. side.len ≤ 16 };
}

impl Side {
    /// The empty byte string, which stands before all others.
    pub fn empty() -> Side
        ensures { result ≡ [] }
    {
        Side {
            bytes: [0; 16],
            len: 0,
        }
    }

    /// The bytes of the side, at most 16.
    pub fn as_slice(&self) -> &[u8]
        ensures value { result.now ≡ self.now }
        ensures within { length self.now ≤ 16 }
    {
        &self.bytes[..self.len]
    }

    /// Whether it has no byte.
    pub fn is_empty(&self) -> bool
        ensures { IsTrue result ↔ (self.now ≡ []) }
    {
        self.len == 0
    }

    /// A copy.
    pub fn copy(&self) -> Side
        ensures { result ≡ self.now }
    {
        Side {
            bytes: self.bytes,
            len: self.len,
        }
    }

    // The bytes that an even number of digits, at most 32, stand for.
    pub(crate) fn from_digits(digits: &[u8]) -> Side
        requires even { length digits.now % 2 ≡ 0 }
        requires within { length digits.now ≤ 32 }
        requires digits { AllPass is_hex_digit digits.now }
        ensures { decode_of digits.now ≡ Ok result }
    {
        let mut bytes = [0; 16];
        let len = digits.len() / 2;
        let _ = hex::decode_to_slice(digits, &mut bytes[..len]);
        Side { bytes, len }
    }
}

impl fmt::Display for Side {
    ghost output = { λ side. Some (encode_lower side) };

    fn fmt<W: fmt::Write>(&self, f: &mut fmt::Formatter<W>) -> fmt::Result {
        let mut digits = [0; 32];
        let text = &mut digits[..2 * self.len];
        let _ = hex::encode_to_slice(self.as_slice(), text);
        match str::from_utf8(text) {
            Ok(text) => f.write_str(text),
            Err(_) => unreachable!(),
        }
    }
}
