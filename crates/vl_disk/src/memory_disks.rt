ghost use Rattle.std.specs.Prelude.{◌≡◌, ◌≢◌, [], ℕ, true, false, Some, None, IfOk, OnOk, OnErr};
ghost use Rattle.vl_disk.specs.Sides.{kept};
ghost use Rattle.vl_disk.specs.MemoryDisk.{new_disk, told_memory};
ghost use Rattle.vl_disk.specs.Slots.{found, held_in};

use crate::fault_plan::FaultPlan;
use crate::slot::Slot;
use crate::slots::{add_slot, put_back, take_out};
use crate::{Disks, MemoryDisk, OpenFault, Sides};
use std::alloc::{AllocError, Global};
use std::marker::Model;

/// Disks in memory, with a list of the takes that fail. A shard for which it was given none has empty ones.
#[derive(Debug, Drop)]
pub struct MemoryDisks {
    alloc: Global,
    slots: Vec<Slot<MemoryDisk>>,
    plan: FaultPlan,
}

impl Model for MemoryDisks {
    ghost use Rattle.vl_disk.specs.MemoryDisk.{MemoryState};
    ghost use Rattle.vl_disk.specs.Slots.{DisksState};

    ghost Value = { DisksState MemoryState };

    ghost view = { λ d. record { slots = d.slots.items; plan = d.plan } };
}

fn empty_sides(alloc: Global) -> Result<Sides<MemoryDisk>, AllocError>
    ensures a { IfOk result (λ sides. sides.a ≡ new_disk [] []) }
    ensures b { IfOk result (λ sides. sides.b ≡ new_disk [] []) }
{
    let a = MemoryDisk::new(alloc, Vec::new(alloc), Vec::new(alloc))?;
    let b = MemoryDisk::new(alloc, Vec::new(alloc), Vec::new(alloc))?;
    Ok(Sides { a, b })
}

impl MemoryDisks {
    /// No disks yet. `failing` has the numbers of the takes that fail, the first take being 1.
    pub fn new(alloc: Global, failing: Vec<u64>) -> MemoryDisks
        ensures slots { result.slots ≡ [] }
        ensures plan { result.plan ≡ record { failing = failing.items; calls = 0; faults = 0 } }
    {
        MemoryDisks {
            alloc,
            slots: Vec::new(alloc),
            plan: FaultPlan::new(failing),
        }
    }

    /// Gives it the disks of a shard for which it had none.
    pub fn add(&mut self, shard: u32, sides: Sides<MemoryDisk>) -> Result<(), AllocError>
        requires { found self.old.slots shard ≡ None }
        ensures added { OnOk result (found self.new.slots shard ≡ Some (Some sides)) }
        ensures refused { OnErr result (self.new.slots ≡ self.old.slots) }
        ensures others { (other : ℕ) → other ≢ shard → found self.new.slots other ≡ found self.old.slots other }
        ensures plan { self.new.plan ≡ self.old.plan }
    {
        add_slot(&mut self.slots, shard, Some(sides))
    }

    /// How many takes have failed, up to the largest `u64`.
    pub fn fault_count(&self) -> u64
        ensures { result ≡ self.now.plan.faults }
    {
        self.plan.faults()
    }

    // A take that the list lets pass.
    fn take_passed(&mut self, shard: u32) -> Result<Sides<MemoryDisk>, AllocError>
        requires { found self.old.slots shard ≢ Some None }
        ensures a { IfOk result (λ sides. told_memory sides.a ≡ (held_in told_memory (told_memory (new_disk [] [])) self.old.slots shard).a) }
        ensures b { IfOk result (λ sides. told_memory sides.b ≡ (held_in told_memory (told_memory (new_disk [] [])) self.old.slots shard).b) }
        ensures out { OnOk result (found self.new.slots shard ≡ Some None) }
        ensures refused { OnErr result (self.new.slots ≡ self.old.slots) }
        ensures others { (other : ℕ) → other ≢ shard → found self.new.slots other ≡ found self.old.slots other }
        ensures plan { self.new.plan ≡ self.old.plan }
    {
        if let Some(sides) = take_out(&mut self.slots, shard) {
            return Ok(sides);
        }
        let sides = empty_sides(self.alloc)?;
        add_slot(&mut self.slots, shard, None)?;
        Ok(sides)
    }
}

impl Disks for MemoryDisks {
    type D = MemoryDisk;

    ghost held = { λ d. held_in told_memory (told_memory (new_disk [] [])) d.slots };

    ghost faults = { λ d. d.plan.faults };

    fn take(&mut self, shard: u32) -> Result<Sides<MemoryDisk>, OpenFault> {
        if self.plan.fails_next() {
            self.plan.count(true);
            return Err(OpenFault::Failed);
        }
        self.plan.count(false);
        let Ok(sides) = self.take_passed(shard) else {
            return Err(OpenFault::Memory);
        };
        Ok(sides)
    }

    fn give_back(&mut self, shard: u32, sides: Sides<MemoryDisk>)
        requires { (held_in told_memory (told_memory (new_disk [] [])) self.old.slots shard).is_out ≡ true }
        ensures back { held_in told_memory (told_memory (new_disk [] [])) self.new.slots shard ≡ kept (told_memory sides.a) (told_memory sides.b) }
        ensures others { (other : ℕ) → other ≢ shard → held_in told_memory (told_memory (new_disk [] [])) self.new.slots other ≡ held_in told_memory (told_memory (new_disk [] [])) self.old.slots other }
        ensures faults { self.new.plan.faults ≡ self.old.plan.faults }
    {
        put_back(&mut self.slots, shard, sides);
    }
}
