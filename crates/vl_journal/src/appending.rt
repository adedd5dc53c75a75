ghost use Rattle.std.specs.Prelude.{◌≡◌, ◌≤◌, ◌<◌, ◌+◌, ◌^◌, ◌++◌, ℕ, List, length, IsTrue, OnOk, is_err};
ghost use Rattle.vl_disk.specs.Moment.{EachLeft, at_rest};
ghost use Rattle.vl_disk.specs.DiskView.{Passes};
ghost use Rattle.vl_disk.specs.Calls.{IsUsed};
ghost use Rattle.vl_record.specs.Grammar.{EndsAt};
ghost use Rattle.vl_journal.specs.Gate.{EndsWithOrWithout, IsStaged, framed, unlocked};

use vl_base::Failed;
use vl_disk::{Disk, write_down};

// Writes a text and a closed gate behind the closed gate at this offset: two device calls. That gate stays closed.
fn stage<D: Disk>(disk: &mut D, gate: u64, bytes: &[u8]) -> Result<(), Failed>
    requires rest { IsTrue (D.told disk.old).is_honest → (D.told disk.old).now ≡ at_rest (D.told disk.old).now.seen }
    requires place { IsTrue (D.told disk.old).is_honest → gate + 1 ≤ length (D.told disk.old).now.seen }
    requires number { gate + 1 < 2 ^ 64 }
    requires room { gate + 1 + length bytes.now ≤ (D.told disk.old).room }
    requires spare { 2 ≤ (D.told disk.old).spare }
    ensures used { IsUsed (is_err result) (D.told disk.old) (D.told disk.new) }
    ensures spare { (D.told disk.old).spare ≤ (D.told disk.new).spare + 2 }
    ensures rest { OnOk result (IsTrue (D.told disk.old).is_honest → (D.told disk.new).now ≡ at_rest (D.told disk.new).now.seen) }
    ensures reaches { OnOk result (IsTrue (D.told disk.old).is_honest → gate + 1 + length bytes.now ≤ length (D.told disk.new).now.seen) }
    ensures staged { OnOk result (IsTrue (D.told disk.old).is_honest → (front text : List ℕ) → gate ≡ length front → bytes.now ≡ framed text → EndsAt front (D.told disk.old).now.seen → IsStaged front text (D.told disk.new).now.seen) }
    ensures moments { IsTrue (D.told disk.old).is_honest → (front : List ℕ) → gate ≡ length front → EndsAt front (D.told disk.old).now.seen → Passes (EachLeft (EndsAt front)) (D.told disk.old) (D.told disk.new) }
{
    write_down(disk, gate + 1, bytes)
}

// Opens the gate at this offset: two device calls.
fn unlock<D: Disk>(disk: &mut D, gate: u64) -> Result<(), Failed>
    requires rest { IsTrue (D.told disk.old).is_honest → (D.told disk.old).now ≡ at_rest (D.told disk.old).now.seen }
    requires place { IsTrue (D.told disk.old).is_honest → gate ≤ length (D.told disk.old).now.seen }
    requires room { gate + 1 ≤ (D.told disk.old).room }
    requires spare { 2 ≤ (D.told disk.old).spare }
    ensures used { IsUsed (is_err result) (D.told disk.old) (D.told disk.new) }
    ensures spare { (D.told disk.old).spare ≤ (D.told disk.new).spare + 2 }
    ensures rest { OnOk result (IsTrue (D.told disk.old).is_honest → (D.told disk.new).now ≡ at_rest (D.told disk.new).now.seen) }
    ensures longer { OnOk result (IsTrue (D.told disk.old).is_honest → length (D.told disk.old).now.seen ≤ length (D.told disk.new).now.seen) }
    ensures opened { OnOk result (IsTrue (D.told disk.old).is_honest → (front text : List ℕ) → gate ≡ length front → IsStaged front text (D.told disk.old).now.seen → EndsAt (front ++ unlocked text) (D.told disk.new).now.seen) }
    ensures moments { IsTrue (D.told disk.old).is_honest → (front text : List ℕ) → gate ≡ length front → IsStaged front text (D.told disk.old).now.seen → Passes (EachLeft (EndsWithOrWithout front text)) (D.told disk.old) (D.told disk.new) }
{
    write_down(disk, gate, &[0xa7])
}

/// Writes a text and a closed gate behind the closed gate at this offset, and then opens that gate: four device calls. At
/// each moment of it a crash leaves the file as it was up to the gate, or with the text and the closed gate behind it.
pub fn put_behind<D: Disk>(disk: &mut D, gate: u64, bytes: &[u8]) -> Result<(), Failed>
    requires rest { IsTrue (D.told disk.old).is_honest → (D.told disk.old).now ≡ at_rest (D.told disk.old).now.seen }
    requires place { IsTrue (D.told disk.old).is_honest → gate + 1 ≤ length (D.told disk.old).now.seen }
    requires number { gate + 1 < 2 ^ 64 }
    requires room { gate + 1 + length bytes.now ≤ (D.told disk.old).room }
    requires spare { 4 ≤ (D.told disk.old).spare }
    ensures used { IsUsed (is_err result) (D.told disk.old) (D.told disk.new) }
    ensures spare { (D.told disk.old).spare ≤ (D.told disk.new).spare + 4 }
    ensures rest { OnOk result (IsTrue (D.told disk.old).is_honest → (D.told disk.new).now ≡ at_rest (D.told disk.new).now.seen) }
    ensures reaches { OnOk result (IsTrue (D.told disk.old).is_honest → gate + 1 + length bytes.now ≤ length (D.told disk.new).now.seen) }
    ensures written { OnOk result (IsTrue (D.told disk.old).is_honest → (front text : List ℕ) → gate ≡ length front → bytes.now ≡ framed text → EndsAt front (D.told disk.old).now.seen → EndsAt (front ++ unlocked text) (D.told disk.new).now.seen) }
    ensures moments { IsTrue (D.told disk.old).is_honest → (front text : List ℕ) → gate ≡ length front → bytes.now ≡ framed text → EndsAt front (D.told disk.old).now.seen → Passes (EachLeft (EndsWithOrWithout front text)) (D.told disk.old) (D.told disk.new) }
{
    stage(disk, gate, bytes)?;
    unlock(disk, gate)
}
