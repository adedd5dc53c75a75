ghost use Rattle.std.specs.Prelude.{◌≡◌, ◌<◌, ◌⊎◌, ◌↔◌, ◌++◌, [], take, length, min, Some, IfOk, IsErr, is_err, IsTrue};
ghost use Rattle.std.specs.Io.{WritesAtMost};
ghost use Rattle.std.specs.Io.KnownBytes.{WriteAppends};
ghost use Rattle.vl_base.specs.Sink.{HasWriteCause};
ghost use Rattle.vl_base.specs.Fakes.{fails_next, plan_after, room_left};

use crate::fault_plan::FaultPlan;
use crate::{Failed, Sink};
use std::alloc::{AllocError, Global};
use std::marker::Model;

/// A sink in memory, with room that it reserves when it is made, and a list of the calls that fail. At the
/// others it takes of a piece what fits, and at full room it fails at a piece that isn't empty.
#[derive(Debug, Drop)]
pub struct MemorySink {
    held: Vec<u8>,
    room: usize,
    piece: usize,
    plan: FaultPlan,
}

impl Model for MemorySink {
    ghost use Rattle.std.specs.Prelude.{◌<◌, ◌≤◌, vec_len, vec_capacity};
    ghost use Rattle.vl_base.specs.Fakes.{SinkState};

    ghost Value = { SinkState };

    ghost view = { λ a. record { held = a.held.items; room = a.room; piece = a.piece; plan = a.plan } };

    ghost invariant = { λ a. (vec_len a.held ≤ a.room) × (a.room ≤ vec_capacity a.held) × (0 < a.piece) };
}

impl MemorySink {
    /// A sink with this room, of which a write takes at most `piece`. `failing` has the numbers of the
    /// writes that fail, the first write being 1.
    pub fn new(
        alloc: Global,
        room: usize,
        piece: usize,
        failing: Vec<u64>,
    ) -> Result<Self, AllocError>
        requires { 0 < piece }
        ensures held { IfOk result (λ s. s.held ≡ []) }
        ensures room { IfOk result (λ s. s.room ≡ room) }
        ensures piece { IfOk result (λ s. s.piece ≡ piece) }
        ensures plan { IfOk result (λ s. s.plan ≡ record { failing = failing.items; calls = 0; faults = 0 }) }
    {
        Ok(MemorySink {
            held: Vec::with_capacity(alloc, room)?,
            room,
            piece,
            plan: FaultPlan::new(failing),
        })
    }

    /// The bytes that it took.
    pub fn bytes(&self) -> &[u8]
        ensures { result.now ≡ self.now.held }
    {
        &self.held
    }

    /// How many writes have failed, up to the largest `u64`.
    pub fn fault_count(&self) -> u64
        ensures { result ≡ self.now.plan.faults }
    {
        self.plan.faults()
    }

    // Appends what fits of one piece. The room was reserved, so no memory is wanted.
    fn take(&mut self, bytes: &[u8]) -> usize
        ensures amount { result ≡ min (min self.old.piece (length bytes.now)) (room_left self.old) }
        ensures piece { 0 < self.old.piece }
        ensures held { self.new ≡ record self.old { held = self.old.held ++ take result bytes.now } }
    {
        let amount = self.piece.min(bytes.len()).min(self.room - self.held.len());
        let Ok(()) = self.held.extend_from_slice(&bytes[..amount]) else {
            unreachable!()
        };
        amount
    }
}

impl Sink for MemorySink {
    ghost held = { λ s. Some s.held };

    ghost faults = { λ s. s.plan.faults };

    fn write(&mut self, bytes: &[u8]) -> Result<usize, Failed>
        ensures bound { WritesAtMost result bytes.now }
        ensures bytes { WriteAppends (Some self.old.held) (Some self.new.held) result bytes.now }
        ensures cause { HasWriteCause self.old.plan.faults self.new.plan.faults result bytes.now }

        // Which calls fail, and how much the others take.
        ensures failing { IsErr result ↔ (IsTrue (fails_next self.old.plan) ⊎ ((room_left self.old ≡ 0) × (0 < length bytes.now))) }
        ensures plan { self.new.plan ≡ plan_after self.old.plan (is_err result) }
        ensures amount { IfOk result (λ n. n ≡ min (min self.old.piece (length bytes.now)) (room_left self.old)) }
        ensures piece { self.new.piece ≡ self.old.piece }
        ensures room { self.new.room ≡ self.old.room }
    {
        let is_full = self.held.len() == self.room;
        let failed = self.plan.fails_next() || (is_full && !bytes.is_empty());
        self.plan.count(failed);
        if failed {
            return Err(Failed);
        }
        Ok(self.take(bytes))
    }
}
