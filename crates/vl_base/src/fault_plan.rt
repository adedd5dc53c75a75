ghost use Rattle.std.specs.Prelude.{◌≡◌, ◌≤◌};
ghost use Rattle.vl_base.specs.Faults.{next_count};
ghost use Rattle.vl_base.specs.Fakes.{fails_next, plan_after};

use std::marker::Model;

/// Which calls of a fake fail: a list of their numbers, the first call being 1, and the counts so far.
/// Both counts stand still at the largest `u64`.
#[derive(Debug, Drop)]
pub struct FaultPlan {
    failing: Vec<u64>,
    calls: u64,
    faults: u64,
}

impl Model for FaultPlan {
    ghost use Rattle.vl_base.specs.Fakes.{PlanState};

    ghost Value = { PlanState };

    ghost view = { λ a. record { failing = a.failing.items; calls = a.calls; faults = a.faults } };
}

impl FaultPlan {
    /// The calls of these numbers fail, the first call being 1. No call was made yet.
    pub fn new(failing: Vec<u64>) -> Self
        ensures { result ≡ record { failing = failing.items; calls = 0; faults = 0 } }
    {
        FaultPlan {
            failing,
            calls: 0,
            faults: 0,
        }
    }

    /// Whether the next call is on the list.
    pub fn fails_next(&self) -> bool
        ensures { result ≡ fails_next self.now }
    {
        let number = self.calls.saturating_add(1);
        self.failing.contains(&number)
    }

    /// Counts a call, and its fault where it failed.
    pub fn count(&mut self, failed: bool)
        ensures counted { self.new ≡ plan_after self.old failed }
        ensures later { self.old.faults ≤ self.new.faults }
    {
        self.calls = self.calls.saturating_add(1);
        if failed {
            self.faults = self.faults.saturating_add(1);
        }
    }

    /// How many calls have failed.
    pub fn faults(&self) -> u64
        ensures { result ≡ self.now.faults }
    {
        self.faults
    }
}
