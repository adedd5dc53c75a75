ghost use Rattle.std.specs.Prelude.{◌≡◌, ◌<◌, ◌≤◌, ◌+◌, ◌-◌, ◌∷◌, [], IfOk, OnErr, reverse};

use crate::event::Event;
use std::alloc::{AllocError, Global};
use std::marker::Model;

/// The events since the cluster was opened, in their order. Contracts see the last first, and the room that is
/// reserved for more: so many events take no memory.
#[derive(Drop)]
pub struct Trace {
    events: Vec<Event>,
    room: usize,
}

impl Model for Trace {
    ghost use Rattle.std.specs.Prelude.{◌+◌, ◌≤◌, length, reverse, vec_capacity};
    ghost use Rattle.vl_run.specs.Trace.{TraceView};

    ghost Value = { TraceView };

    ghost view = { λ t. record { events = reverse t.events.items; room = t.room } };

    ghost invariant = { λ t. length t.events.items + t.room ≤ vec_capacity t.events };
}

impl Trace {
    /// No events, and no room. It takes no memory.
    pub fn new(alloc: Global) -> Trace
        ensures { result ≡ record { events = []; room = 0 } }
    {
        Trace {
            events: Vec::new(alloc),
            room: 0,
        }
    }

    /// Makes room for one event more. `AllocError` where memory was refused; nothing has changed then.
    pub fn reserve(&mut self) -> Result<(), AllocError>
        ensures ok { IfOk result (λ _. self.new ≡ record self.old { room = self.old.room + 1 }) }
        ensures err { OnErr result (self.new ≡ self.old) }
    {
        let Some(room) = self.room.checked_add(1) else {
            return Err(AllocError);
        };
        self.events.reserve(room)?;
        self.room = room;
        Ok(())
    }

    /// Notes an event in the room that was made for one. It takes no memory.
    pub fn note(&mut self, event: Event)
        requires { 0 < self.old.room }
        ensures { self.new ≡ record { events = event ∷ self.old.events; room = self.old.room - 1 } }
    {
        let noted = self.events.push(event).is_ok();
        prove!(noted);
        self.room -= 1;
    }

    /// Gives back the room that was made for so many events.
    pub fn release(&mut self, count: usize)
        requires { count ≤ self.old.room }
        ensures { self.new ≡ record self.old { room = self.old.room - count } }
    {
        self.room -= count;
    }

    /// The events, the first one first.
    pub fn as_slice(&self) -> &[Event]
        ensures { reverse result.now ≡ self.now.events }
    {
        self.events.as_slice()
    }
}
