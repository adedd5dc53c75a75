ghost use Rattle.std.specs.Prelude.{ℕ, List, Option, OnOk, OnErr};
ghost use Rattle.std.specs.Io.{WritesAtMost};
ghost use Rattle.std.specs.Io.KnownBytes.{Appends, WriteAppends};
ghost use Rattle.vl_base.specs.Faults.{HasCause};
ghost use Rattle.vl_base.specs.Sink.{HasWriteCause, WrotePart};

use crate::Failed;

/// Where bytes go, a piece at a time.
pub trait Sink {
    /// The bytes that it took, where they are known.
    ghost held: { Self → Option (List ℕ) };

    /// How often a write has failed, or took none of some bytes. It stands still at the largest `u64`.
    ghost faults: { Self → ℕ };

    /// Takes a front of `bytes` and returns its length. 0 for bytes that aren't empty is a fault too.
    /// A write that fails adds nothing.
    fn write(&mut self, bytes: &[u8]) -> Result<usize, Failed>
        ensures bound { WritesAtMost result bytes.now }
        ensures bytes { WriteAppends (held self.old) (held self.new) result bytes.now }
        ensures cause { HasWriteCause (faults self.old) (faults self.new) result bytes.now };
}

/// Writes all of the bytes, in as many writes as the sink wants. After an error the sink has taken some
/// front of them.
pub fn write_all<O: Sink>(out: &mut O, bytes: &[u8]) -> Result<(), Failed>
    ensures ok { OnOk result (Appends (O.held out.old) (O.held out.new) bytes.now) }
    ensures err { OnErr result (WrotePart (O.held out.old) (O.held out.new) bytes.now) }
    ensures cause { HasCause (O.faults out.old) (O.faults out.new) result }
{
    let mut done = 0;
    'pieces: while done < bytes.len() {
        match out.write(&bytes[done..]) {
            Ok(0) => return Err(Failed),
            Ok(taken) => done += taken,
            Err(failed) => return Err(failed),
        }
    }
    Ok(())
}
