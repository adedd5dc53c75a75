ghost use Rattle.std.specs.Prelude.{◌≡◌, ◌++◌, ◌∷◌, IsTrue, IfOk, IfErr, Ok, Some, ◌↔◌};
ghost use Rattle.hex.specs.Hex.{encode_lower};
ghost use Rattle.vl_vindex.specs.KeyRange.{Range, is_in, is_ordered, IsRead, IsFault, text_of};

use crate::bad_range::BadRange;
use crate::order::{comes_before, is_above};
use crate::reading::{dash_place, is_whole};
use crate::side::Side;
use std::fmt;
use std::marker::Model;

/// A key range: the keyspace ids from its start on that stand before its end.
///
/// An empty start is the lowest keyspace id, and an empty end leaves the range open.
#[derive(Drop)]
pub struct KeyRange {
    start: Side,
    end: Side,
}

impl Model for KeyRange {
    ghost use Rattle.vl_vindex.specs.KeyRange.{Range, is_above, is_ordered};
    ghost use Rattle.std.specs.Prelude.{IsTrue};

    ghost Value = { Range };

    ghost view = { λ range. record { start = range.start; end = range.end } };

    ghost invariant = { λ range. IsTrue (is_above range.end range.start) };
}

impl KeyRange {
    /// Reads `start-end`: each side an even number of hexadecimal digits, at most 32, in either
    /// case, or empty. `0` is read as `-`. The place of a fault is the first byte with which no
    /// range goes on, or the text's length; where the end isn't above the start, the end's place.
    pub fn read(text: &[u8]) -> Result<KeyRange, BadRange>
        ensures found { IfOk result (λ range. IsRead text.now range) }
        ensures only { (range : Range) → IsRead text.now range → result ≡ Ok range }
        ensures fault { IfErr result (λ bad. IsFault text.now bad.at) }
    {
        if is_whole(text) {
            return Ok(KeyRange {
                start: Side::empty(),
                end: Side::empty(),
            });
        }
        let dash = match dash_place(text) {
            Ok(dash) => dash,
            Err(bad) => return Err(bad),
        };
        let start = Side::from_digits(&text[..dash]);
        let end = Side::from_digits(&text[dash + 1..]);
        if is_above(end.as_slice(), start.as_slice()) {
            Ok(KeyRange { start, end })
        } else {
            Err(BadRange { at: dash + 1 })
        }
    }

    /// Whether the range holds this keyspace id: from its start on, before its end.
    pub fn contains(&self, ksid: &[u8]) -> bool
        ensures { result ≡ is_in self.now ksid.now }
    {
        !comes_before(ksid, self.start.as_slice()) && is_above(self.end.as_slice(), ksid)
    }

    /// The side where the range begins, which it holds.
    pub fn start(&self) -> &Side
        ensures value { result.now ≡ self.now.start }
        ensures ordered { IsTrue (is_ordered self.now) }
    {
        &self.start
    }

    /// The end, which is empty where the range is open.
    pub fn end(&self) -> &Side
        ensures value { result.now ≡ self.now.end }
        ensures ordered { IsTrue (is_ordered self.now) }
    {
        &self.end
    }

    /// A copy.
    pub fn copy(&self) -> KeyRange
        ensures { result ≡ self.now }
    {
        KeyRange {
            start: self.start.copy(),
            end: self.end.copy(),
        }
    }
}

impl fmt::Display for KeyRange {
    ghost output = { λ range. Some (text_of range) };

    fn fmt<W: fmt::Write>(&self, f: &mut fmt::Formatter<W>) -> fmt::Result {
        write!(f, "{}-{}", self.start, self.end)
    }
}
