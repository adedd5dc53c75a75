ghost use Rattle.std.specs.Prelude.{◌≡◌, ◌≢◌, ℕ, Some, None, MatchOption, OnOk, OnErr};
ghost use Rattle.vl_disk.specs.Slots.{IsFoundAt, found};

use crate::Sides;
use crate::slot::Slot;
use std::alloc::AllocError;

// The index of this shard's slot.
fn index_of<D>(slots: &[Slot<D>], shard: u32) -> Option<usize>
    ensures { MatchOption result (found slots.now shard ≡ None) (λ index. IsFoundAt slots.now shard index) }
{
    for (index, slot) in slots.iter().enumerate() {
        if slot.shard == shard {
            return Some(index);
        }
    }
    None
}

/// Takes out the sides of this shard, or gives none where it has no slot yet.
pub(crate) fn take_out<D: Drop>(slots: &mut Vec<Slot<D>>, shard: u32) -> Option<Sides<D>>
    requires { found slots.old.items shard ≢ Some None }
    ensures given { MatchOption result ((found slots.old.items shard ≡ None) × (slots.new.items ≡ slots.old.items)) (λ sides. (found slots.old.items shard ≡ Some (Some sides)) × (found slots.new.items shard ≡ Some None)) }
    ensures others { (other : ℕ) → other ≢ shard → found slots.new.items other ≡ found slots.old.items other }
{
    let Some(index) = index_of(slots.as_slice(), shard) else {
        return None;
    };
    slots[index].sides.take()
}

/// Makes the slot of a shard that has none yet, with these sides or with none.
pub(crate) fn add_slot<D: Drop>(
    slots: &mut Vec<Slot<D>>,
    shard: u32,
    sides: Option<Sides<D>>,
) -> Result<(), AllocError>
    requires { found slots.old.items shard ≡ None }
    ensures added { OnOk result (found slots.new.items shard ≡ Some sides) }
    ensures refused { OnErr result (slots.new.items ≡ slots.old.items) }
    ensures others { (other : ℕ) → other ≢ shard → found slots.new.items other ≡ found slots.old.items other }
{
    let slot = Slot { shard, sides };
    let Ok(()) = slots.push(slot) else {
        return Err(AllocError);
    };
    Ok(())
}

/// Puts the sides of this shard back.
pub(crate) fn put_back<D: Drop>(slots: &mut Vec<Slot<D>>, shard: u32, sides: Sides<D>)
    requires { found slots.old.items shard ≡ Some None }
    ensures back { found slots.new.items shard ≡ Some (Some sides) }
    ensures others { (other : ℕ) → other ≢ shard → found slots.new.items other ≡ found slots.old.items other }
{
    let Some(index) = index_of(slots.as_slice(), shard) else {
        unreachable!()
    };
    slots[index].sides = Some(sides);
}
