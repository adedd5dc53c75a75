ghost use Rattle.std.specs.Prelude.{true, false, ◌≡◌, ◌≤◌, ◌<◌, ◌+◌, ◌^◌, [], ℕ, List, length, IsTrue, OnOk, is_err};
ghost use Rattle.vl_disk.specs.Moment.{EachLeft, at_rest};
ghost use Rattle.vl_disk.specs.DiskView.{Passes};
ghost use Rattle.vl_disk.specs.Calls.{IsUsed};
ghost use Rattle.vl_record.specs.Grammar.{EndsAt};
ghost use Rattle.vl_record.specs.Stored.{IsNew};
ghost use Rattle.vl_journal.specs.Gate.{IsNewOrEndsAt, framed, unlocked};

use crate::appending::put_behind;
use vl_base::Failed;
use vl_disk::{Disk, write_down};

// Closes the file gate of a file of at most one byte: two device calls.
fn shut_short<D: Disk>(disk: &mut D) -> Result<(), Failed>
    requires rest { IsTrue (D.told disk.old).is_honest → (D.told disk.old).now ≡ at_rest (D.told disk.old).now.seen }
    requires short { IsTrue (D.told disk.old).is_honest → length (D.told disk.old).now.seen ≤ 1 }
    requires room { 1 ≤ (D.told disk.old).room }
    requires spare { 2 ≤ (D.told disk.old).spare }
    ensures used { IsUsed (is_err result) (D.told disk.old) (D.told disk.new) }
    ensures spare { (D.told disk.old).spare ≤ (D.told disk.new).spare + 2 }
    ensures rest { OnOk result (IsTrue (D.told disk.old).is_honest → (D.told disk.new).now ≡ at_rest (D.told disk.new).now.seen) }
    ensures shut { OnOk result (IsTrue (D.told disk.old).is_honest → EndsAt [] (D.told disk.new).now.seen) }
    ensures moments { IsTrue (D.told disk.old).is_honest → Passes (EachLeft IsNew) (D.told disk.old) (D.told disk.new) }
{
    write_down(disk, 0, &[0])
}

// The first write over a file whose gate is closed already: two device calls. It is at 1, since an unsynced write at 0
// could open the gate over old bytes.
fn shut_closed<D: Disk>(disk: &mut D) -> Result<(), Failed>
    requires rest { IsTrue (D.told disk.old).is_honest → (D.told disk.old).now ≡ at_rest (D.told disk.old).now.seen }
    requires closed { IsTrue (D.told disk.old).is_honest → EndsAt [] (D.told disk.old).now.seen }
    requires room { 2 ≤ (D.told disk.old).room }
    requires spare { 2 ≤ (D.told disk.old).spare }
    ensures used { IsUsed (is_err result) (D.told disk.old) (D.told disk.new) }
    ensures spare { (D.told disk.old).spare ≤ (D.told disk.new).spare + 2 }
    ensures rest { OnOk result (IsTrue (D.told disk.old).is_honest → (D.told disk.new).now ≡ at_rest (D.told disk.new).now.seen) }
    ensures shut { OnOk result (IsTrue (D.told disk.old).is_honest → EndsAt [] (D.told disk.new).now.seen) }
    ensures moments { IsTrue (D.told disk.old).is_honest → Passes (EachLeft IsNew) (D.told disk.old) (D.told disk.new) }
{
    write_down(disk, 1, &[0])
}

// Closes the file gate of a file that stores nothing: two device calls.
fn shut<D: Disk>(disk: &mut D, is_closed: bool) -> Result<(), Failed>
    requires rest { IsTrue (D.told disk.old).is_honest → (D.told disk.old).now ≡ at_rest (D.told disk.old).now.seen }
    requires short { IsTrue (D.told disk.old).is_honest → is_closed ≡ false → length (D.told disk.old).now.seen ≤ 1 }
    requires closed { IsTrue (D.told disk.old).is_honest → is_closed ≡ true → EndsAt [] (D.told disk.old).now.seen }
    requires room { 2 ≤ (D.told disk.old).room }
    requires spare { 2 ≤ (D.told disk.old).spare }
    ensures used { IsUsed (is_err result) (D.told disk.old) (D.told disk.new) }
    ensures spare { (D.told disk.old).spare ≤ (D.told disk.new).spare + 2 }
    ensures rest { OnOk result (IsTrue (D.told disk.old).is_honest → (D.told disk.new).now ≡ at_rest (D.told disk.new).now.seen) }
    ensures shut { OnOk result (IsTrue (D.told disk.old).is_honest → EndsAt [] (D.told disk.new).now.seen) }
    ensures moments { IsTrue (D.told disk.old).is_honest → Passes (EachLeft IsNew) (D.told disk.old) (D.told disk.new) }
{
    if is_closed {
        return shut_closed(disk);
    }
    shut_short(disk)
}

/// Makes a side over a file that stores nothing: the file gate is closed, the bytes, which end in a closed gate, are written
/// behind it, and it is opened, in six device calls. `is_closed` tells a file of two bytes or more whose file gate is closed
/// from one of at most one byte. At each moment of it a crash leaves a file that stores nothing, or the whole side.
pub fn create<D: Disk>(disk: &mut D, is_closed: bool, bytes: &[u8]) -> Result<(), Failed>
    requires rest { IsTrue (D.told disk.old).is_honest → (D.told disk.old).now ≡ at_rest (D.told disk.old).now.seen }
    requires short { IsTrue (D.told disk.old).is_honest → is_closed ≡ false → length (D.told disk.old).now.seen ≤ 1 }
    requires closed { IsTrue (D.told disk.old).is_honest → is_closed ≡ true → EndsAt [] (D.told disk.old).now.seen }
    requires some { 1 ≤ length bytes.now }
    requires room { 1 + length bytes.now ≤ (D.told disk.old).room }
    requires spare { 6 ≤ (D.told disk.old).spare }
    ensures used { IsUsed (is_err result) (D.told disk.old) (D.told disk.new) }
    ensures spare { (D.told disk.old).spare ≤ (D.told disk.new).spare + 6 }
    ensures rest { OnOk result (IsTrue (D.told disk.old).is_honest → (D.told disk.new).now ≡ at_rest (D.told disk.new).now.seen) }
    ensures created { OnOk result (IsTrue (D.told disk.old).is_honest → (text : List ℕ) → bytes.now ≡ framed text → EndsAt (unlocked text) (D.told disk.new).now.seen) }
    ensures moments { IsTrue (D.told disk.old).is_honest → (text : List ℕ) → bytes.now ≡ framed text → Passes (EachLeft (IsNewOrEndsAt text)) (D.told disk.old) (D.told disk.new) }
{
    shut(disk, is_closed)?;
    put_behind(disk, 0, bytes)
}
