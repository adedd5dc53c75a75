ghost use Rattle.std.specs.Prelude.{◌≡◌, ◌<◌, ◌≤◌, ◌-◌, max, length, OnOk, OnErr};
ghost use Rattle.vl_disk.specs.Past.{begun, call_len, told_after};

use crate::call::Call;
use std::alloc::{AllocError, Global};
use std::marker::Model;

/// The calls that a disk in memory met, from which it tells each moment that it had. It takes memory only to make
/// room.
#[derive(Debug, Drop)]
pub(crate) struct Past {
    start: Vec<u8>,
    // The calls, the oldest first, and the bytes of the writes in a row.
    calls: Vec<Call>,
    log: Vec<u8>,
    room: usize,
    spare: usize,
}

impl Model for Past {
    ghost use Rattle.vl_disk.specs.Past.{PastState};

    ghost Value = { PastState };

    ghost use Rattle.vl_disk.specs.PastInside.{past_of, IsPast};

    ghost view = { past_of };

    ghost invariant = { IsPast };
}

impl Past {
    /// No call was met, and the file has these bytes.
    pub fn new(alloc: Global, start: Vec<u8>) -> Past
        ensures { result ≡ record { told = begun start.items; room = length start.items; spare = 0 } }
    {
        let room = start.len();
        Past {
            start,
            calls: Vec::new(alloc),
            log: Vec::new(alloc),
            room,
            spare: 0,
        }
    }

    /// Makes room for `spare` more calls, with at most `room` bytes each.
    pub fn reserve(&mut self, room: usize, spare: usize) -> Result<(), AllocError>
        ensures made { OnOk result (self.new ≡ record self.old { room = max room self.old.room; spare = max spare self.old.spare }) }
        ensures refused { OnErr result (self.new ≡ self.old) }
    {
        let room = room.max(self.room);
        let spare = spare.max(self.spare);
        let Some(log) = spare.checked_mul(room) else {
            return Err(AllocError);
        };
        self.calls.reserve(spare)?;
        self.log.reserve(log)?;
        self.room = room;
        self.spare = spare;
        Ok(())
    }

    /// Adds a call, with the bytes that it wrote.
    pub fn note(&mut self, call: Call, bytes: &[u8])
        requires len { call_len call ≡ length bytes.now }
        requires room { length bytes.now ≤ self.old.room }
        requires spare { 0 < self.old.spare }
        ensures { self.new ≡ record self.old { told = told_after call bytes.now self.old.told; spare = self.old.spare - 1 } }
    {
        let Ok(()) = self.calls.push(call) else {
            unreachable!()
        };
        let Ok(()) = self.log.extend_from_slice(bytes) else {
            unreachable!()
        };
        self.spare -= 1;
    }
}
