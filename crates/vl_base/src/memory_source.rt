ghost use Rattle.std.specs.Prelude.{◌≡◌, ◌<◌, length, min, Some, IfOk, OnErr, is_err};
ghost use Rattle.std.specs.Io.{ReadsAtMost};
ghost use Rattle.std.specs.Io.KnownBytes.{ReadConsumes};
ghost use Rattle.vl_base.specs.Faults.{HasCause};
ghost use Rattle.vl_base.specs.Source.{CountsGiven};
ghost use Rattle.vl_base.specs.Fakes.{fails_next, plan_after};

use crate::fault_plan::FaultPlan;
use crate::{Failed, Source, SteadySource};
use std::marker::Model;

/// A source in memory, with a list of the calls that fail. At the others it gives its bytes in order, in
/// pieces of at most one length.
#[derive(Debug, Drop)]
pub struct MemorySource {
    steady: SteadySource,
    plan: FaultPlan,
}

impl Model for MemorySource {
    ghost use Rattle.vl_base.specs.Fakes.{SourceState};

    ghost Value = { SourceState };

    ghost view = { λ a. record { steady = a.steady; plan = a.plan } };
}

impl MemorySource {
    /// A source of these bytes, of which a read gives at most `piece`. `failing` has the numbers of the
    /// reads that fail, the first read being 1.
    pub fn new(bytes: Vec<u8>, piece: usize, failing: Vec<u64>) -> Self
        requires { 0 < piece }
        ensures steady { result.steady ≡ record { left = bytes.items; piece = piece; given = 0 } }
        ensures plan { result.plan ≡ record { failing = failing.items; calls = 0; faults = 0 } }
    {
        MemorySource {
            steady: SteadySource::new(bytes, piece),
            plan: FaultPlan::new(failing),
        }
    }

    /// The bytes that no read has given yet.
    pub fn rest(&self) -> &[u8]
        ensures { result.now ≡ self.now.steady.left }
    {
        self.steady.rest()
    }

    /// How many reads gave bytes, up to the largest `u64`.
    pub fn given_count(&self) -> u64
        ensures { result ≡ self.now.steady.given }
    {
        self.steady.given_count()
    }

    /// How many reads have failed, up to the largest `u64`.
    pub fn fault_count(&self) -> u64
        ensures { result ≡ self.now.plan.faults }
    {
        self.plan.faults()
    }
}

impl Source for MemorySource {
    ghost left = { λ s. Some s.steady.left };

    ghost faults = { λ s. s.plan.faults };

    ghost given = { λ s. s.steady.given };

    fn read(&mut self, buf: &mut [u8]) -> Result<usize, Failed>
        ensures bound { ReadsAtMost result buf.new }
        ensures bytes { ReadConsumes (Some self.old.steady.left) (Some self.new.steady.left) result buf.new }
        ensures cause { HasCause self.old.plan.faults self.new.plan.faults result }
        ensures count { CountsGiven self.old.steady.given self.new.steady.given result }

        // Which calls fail, and how much the others give.
        ensures failing { is_err result ≡ fails_next self.old.plan }
        ensures plan { self.new.plan ≡ plan_after self.old.plan (is_err result) }
        ensures amount { IfOk result (λ n. n ≡ min (min self.old.steady.piece (length buf.old)) (length self.old.steady.left)) }
        ensures piece { self.new.steady.piece ≡ self.old.steady.piece }
    {
        let failed = self.plan.fails_next();
        self.plan.count(failed);
        if failed {
            return Err(Failed);
        }
        Ok(self.steady.give(buf))
    }
}
