ghost use Rattle.std.specs.Prelude.{◌≡◌, ◌<◌, ◌≤◌, ◌==◌, ◌++◌, if◌then◌else◌, take, drop, length, min, vec_len, Some};
ghost use Rattle.vl_base.specs.Faults.{next_count};

use crate::{Failed, Source};
use std::marker::Model;

/// A source in memory that never fails: it gives its bytes in order, in pieces of at most one length.
#[derive(Debug, Drop)]
pub struct SteadySource {
    bytes: Vec<u8>,
    at: usize,
    piece: usize,
    given: u64,
}

impl Model for SteadySource {
    ghost use Rattle.std.specs.Prelude.{◌<◌, ◌≤◌, drop, vec_len};
    ghost use Rattle.vl_base.specs.Fakes.{SteadyState};

    ghost Value = { SteadyState };

    ghost view = { λ a. record { left = drop a.at a.bytes.items; piece = a.piece; given = a.given } };

    ghost invariant = { λ a. (a.at ≤ vec_len a.bytes) × (0 < a.piece) };
}

impl SteadySource {
    /// A source of these bytes, of which a read gives at most `piece`.
    pub fn new(bytes: Vec<u8>, piece: usize) -> Self
        requires { 0 < piece }
        ensures { result ≡ record { left = bytes.items; piece = piece; given = 0 } }
    {
        SteadySource {
            bytes,
            at: 0,
            piece,
            given: 0,
        }
    }

    /// The bytes that no read has given yet.
    pub fn rest(&self) -> &[u8]
        ensures { result.now ≡ self.now.left }
    {
        &self.bytes[self.at..]
    }

    /// How many reads gave bytes, up to the largest `u64`.
    pub fn given_count(&self) -> u64
        ensures { result ≡ self.now.given }
    {
        self.given
    }

    /// Puts the next piece at the start of `buf` and returns its length: 0 at the end, or where `buf`
    /// is empty.
    pub fn give(&mut self, buf: &mut [u8]) -> usize
        ensures amount { result ≡ min (min self.old.piece (length buf.old)) (length self.old.left) }
        ensures piece { 0 < self.old.piece }
        ensures bytes { self.old.left ≡ take result buf.new ++ self.new.left }
        ensures same { self.new.piece ≡ self.old.piece }
        ensures later { self.old.given ≤ self.new.given }
        ensures given { self.new.given ≡ (if result == 0 then self.old.given else next_count self.old.given) }
    {
        let amount = self.piece.min(buf.len()).min(self.bytes.len() - self.at);
        buf[..amount].copy_from_slice(&self.bytes[self.at..self.at + amount]);
        self.at += amount;
        if amount > 0 {
            self.given = self.given.saturating_add(1);
        }
        amount
    }
}

impl Source for SteadySource {
    ghost left = { λ s. Some s.left };

    ghost faults = { λ _. 0 };

    ghost given = { λ s. s.given };

    fn read(&mut self, buf: &mut [u8]) -> Result<usize, Failed> {
        Ok(self.give(buf))
    }
}
