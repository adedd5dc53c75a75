ghost use Rattle.std.specs.Prelude.{◌≡◌, ◌≢◌, ℕ, true, false, IfOk, OnOk, OnErr};
ghost use Rattle.vl_disk.specs.Sides.{SidesView, HasOpenCause, kept};

use crate::{Disk, OpenFault, Sides};

/// The disks of all shards, handed out one shard at a time.
pub trait Disks {
    type D: Disk;

    /// What the sides of each shard tell, by its number, and whether they are handed out.
    ghost held: { Self → ℕ → SidesView };

    /// How often a `take` has failed. It stands still at the largest `u64`.
    ghost faults: { Self → ℕ };

    /// Hands out the sides of this shard as they are told. After a refusal they are held as before.
    fn take(&mut self, shard: u32) -> Result<Sides<Self::D>, OpenFault>
        requires { (held self.old shard).is_out ≡ false }
        ensures a { IfOk result (λ sides. Self.D.told sides.a ≡ (held self.old shard).a) }
        ensures b { IfOk result (λ sides. Self.D.told sides.b ≡ (held self.old shard).b) }
        ensures out { OnOk result ((held self.new shard).is_out ≡ true) }
        ensures refused { OnErr result (held self.new shard ≡ held self.old shard) }
        ensures others { (other : ℕ) → other ≢ shard → held self.new other ≡ held self.old other }
        ensures cause { HasOpenCause (faults self.old) (faults self.new) result };

    /// Takes the sides of this shard back, and holds them as they are handed in.
    fn give_back(&mut self, shard: u32, sides: Sides<Self::D>)
        requires { (held self.old shard).is_out ≡ true }
        ensures back { held self.new shard ≡ kept (Self.D.told sides.a) (Self.D.told sides.b) }
        ensures others { (other : ℕ) → other ≢ shard → held self.new other ≡ held self.old other }
        ensures faults { faults self.new ≡ faults self.old };
}
