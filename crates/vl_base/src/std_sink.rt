ghost use Rattle.std.specs.Prelude.{◌≡◌, None};
ghost use Rattle.std.specs.Io.{WritesAtMost};
ghost use Rattle.std.specs.Io.KnownBytes.{WriteAppends};
ghost use Rattle.vl_base.specs.Sink.{HasWriteCause};

use crate::{Failed, Sink};
use std::io::{ErrorKind, Write};
use std::marker::Model;

/// A sink over a writer of std, as standard output, a file or a socket. It tells its count of faults and not
/// what the writer holds, and never flushes. A write that a signal interrupts is made again; every other
/// error is a fault, and so is a write that takes none of some bytes.
#[derive(Debug, Drop)]
pub struct StdSink<W> {
    writer: W,
    faults: u64,
}

impl<W> Model for StdSink<W> {
    ghost use Rattle.vl_base.specs.Adapters.{WriterState};

    ghost Value = { WriterState W };

    ghost view = { λ a. record { writer = a.writer; faults = a.faults } };
}

impl<W> StdSink<W> {
    /// A sink over this writer, with its count at 0.
    pub fn new(writer: W) -> Self
        ensures { result ≡ record { writer = writer; faults = 0 } }
    {
        StdSink { writer, faults: 0 }
    }
}

// One write, made again where a signal interrupts it.
fn write_uninterrupted<W: Write>(writer: &mut W, bytes: &[u8]) -> Result<usize, Failed>
    ensures bound { WritesAtMost result bytes.now }
    ensures bytes { WriteAppends (W.contents writer.old) (W.contents writer.new) result bytes.now }
{
    for _ in 0..u64::MAX {
        match writer.write(bytes) {
            Ok(taken) => return Ok(taken),
            Err(error) if error.kind() == ErrorKind::Interrupted => {}
            Err(_) => return Err(Failed),
        }
    }
    Err(Failed)
}

impl<W: Write> Sink for StdSink<W> {
    ghost held = { λ _. None };

    ghost faults = { λ s. s.faults };

    fn write(&mut self, bytes: &[u8]) -> Result<usize, Failed>
        ensures bound { WritesAtMost result bytes.now }
        ensures bytes { WriteAppends None None result bytes.now }
        ensures cause { HasWriteCause self.old.faults self.new.faults result bytes.now }

        // What a writer that tells its bytes takes.
        ensures carried { WriteAppends (W.contents self.old.writer) (W.contents self.new.writer) result bytes.now }
    {
        let outcome = write_uninterrupted(&mut self.writer, bytes);
        let is_fault = match outcome {
            Ok(taken) => taken == 0 && !bytes.is_empty(),
            Err(_) => true,
        };
        if is_fault {
            self.faults = self.faults.saturating_add(1);
        }
        outcome
    }
}
