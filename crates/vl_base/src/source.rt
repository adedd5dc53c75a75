ghost use Rattle.std.specs.Prelude.{ℕ, List, Option};
ghost use Rattle.std.specs.Io.{ReadsAtMost};
ghost use Rattle.std.specs.Io.KnownBytes.{ReadConsumes};
ghost use Rattle.vl_base.specs.Faults.{HasCause};
ghost use Rattle.vl_base.specs.Source.{CountsGiven};

use crate::Failed;

/// Where bytes come from, a piece at a time.
pub trait Source {
    /// The bytes that reads will give from here on, where they are known.
    ghost left: { Self → Option (List ℕ) };

    /// How often a read has failed. It stands still at the largest `u64`.
    ghost faults: { Self → ℕ };

    /// How many reads gave bytes. It stands still at the largest `u64`.
    ghost given: { Self → ℕ };

    /// Puts bytes at the start of `buf` and returns their number: 0 at the end, or where `buf` is
    /// empty. A read that fails takes nothing.
    fn read(&mut self, buf: &mut [u8]) -> Result<usize, Failed>
        ensures bound { ReadsAtMost result buf.new }
        ensures bytes { ReadConsumes (left self.old) (left self.new) result buf.new }
        ensures cause { HasCause (faults self.old) (faults self.new) result }
        ensures count { CountsGiven (given self.old) (given self.new) result };
}
