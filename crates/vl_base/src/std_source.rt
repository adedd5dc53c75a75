ghost use Rattle.std.specs.Prelude.{◌≡◌, None};
ghost use Rattle.std.specs.Io.{ReadsAtMost};
ghost use Rattle.std.specs.Io.KnownBytes.{ReadConsumes};
ghost use Rattle.vl_base.specs.Faults.{HasCause};
ghost use Rattle.vl_base.specs.Source.{CountsGiven};

use crate::{Failed, Source};
use std::io::{ErrorKind, Read};
use std::marker::Model;

/// A source over a reader of std, as standard input, a file or a socket. It tells its counts and not what
/// the reader has left. A read that a signal interrupts is made again; every other error is a fault.
#[derive(Debug, Drop)]
pub struct StdSource<R> {
    reader: R,
    faults: u64,
    given: u64,
}

impl<R> Model for StdSource<R> {
    ghost use Rattle.vl_base.specs.Adapters.{ReaderState};

    ghost Value = { ReaderState R };

    ghost view = { λ a. record { reader = a.reader; faults = a.faults; given = a.given } };
}

impl<R> StdSource<R> {
    /// A source over this reader, with both counts at 0.
    pub fn new(reader: R) -> Self
        ensures { result ≡ record { reader = reader; faults = 0; given = 0 } }
    {
        StdSource {
            reader,
            faults: 0,
            given: 0,
        }
    }
}

// One read, made again where a signal interrupts it.
pub(crate) fn read_uninterrupted<R: Read>(reader: &mut R, buf: &mut [u8]) -> Result<usize, Failed>
    ensures bound { ReadsAtMost result buf.new }
    ensures bytes { ReadConsumes (R.remaining reader.old) (R.remaining reader.new) result buf.new }
{
    for _ in 0..u64::MAX {
        match reader.read(buf) {
            Ok(given) => return Ok(given),
            Err(error) if error.kind() == ErrorKind::Interrupted => {}
            Err(_) => return Err(Failed),
        }
    }
    Err(Failed)
}

impl<R: Read> Source for StdSource<R> {
    ghost left = { λ _. None };

    ghost faults = { λ s. s.faults };

    ghost given = { λ s. s.given };

    fn read(&mut self, buf: &mut [u8]) -> Result<usize, Failed>
        ensures bound { ReadsAtMost result buf.new }
        ensures bytes { ReadConsumes None None result buf.new }
        ensures cause { HasCause self.old.faults self.new.faults result }
        ensures count { CountsGiven self.old.given self.new.given result }

        // What a reader that tells its bytes gives.
        ensures carried { ReadConsumes (R.remaining self.old.reader) (R.remaining self.new.reader) result buf.new }
    {
        let outcome = read_uninterrupted(&mut self.reader, buf);
        match outcome {
            Ok(0) => {}
            Ok(_) => self.given = self.given.saturating_add(1),
            Err(_) => self.faults = self.faults.saturating_add(1),
        }
        outcome
    }
}
