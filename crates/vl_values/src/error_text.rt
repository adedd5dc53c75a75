ghost use Rattle.std.specs.Prelude.{◌≡◌, ◌≤◌, ◌++◌, [], length, take};

use arrayvec::ArrayVec;
use std::marker::Model;

/// An error text, cut after 512 bytes. It stands in a fixed array, so that it takes no memory.
#[derive(Drop)]
pub struct ErrorText {
    bytes: ArrayVec<u8, 512>,
}

impl Model for ErrorText {
    ghost use Rattle.std.specs.Prelude.{ℕ, List, ◌≤◌, length};

    ghost Value = { List ℕ };

    ghost view = { λ t. t.bytes.items };

    ghost invariant = { λ t. length t.bytes.items ≤ 512 };
}

impl ErrorText {
    /// A text of no byte.
    pub fn new() -> ErrorText
        ensures { result ≡ [] }
    {
        ErrorText {
            bytes: ArrayVec::new(),
        }
    }

    /// The bytes that were put in so far.
    pub fn as_slice(&self) -> &[u8]
        ensures value { result.now ≡ self.now }
        ensures short { length self.now ≤ 512 }
    {
        self.bytes.as_slice()
    }

    /// Adds these bytes behind the text, as far as there is room.
    pub fn push(&mut self, bytes: &[u8])
        ensures { self.new ≡ take 512 (self.old ++ bytes.now) }
    {
        let room = self.bytes.remaining_capacity();
        if bytes.len() <= room {
            self.bytes.try_extend_from_slice(bytes).unwrap();
        } else {
            self.bytes.try_extend_from_slice(&bytes[..room]).unwrap();
        }
    }
}
