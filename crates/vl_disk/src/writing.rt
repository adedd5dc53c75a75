ghost use Rattle.std.specs.Prelude.{◌≡◌, ◌≤◌, ◌<◌, ◌+◌, length, IsTrue, OnOk, is_err};
ghost use Rattle.vl_disk.specs.Moment.{EachLeft, Torn, at_rest, put};
ghost use Rattle.vl_disk.specs.DiskView.{Passes};
ghost use Rattle.vl_disk.specs.Calls.{IsUsed};

use crate::Disk;
use vl_base::Failed;

/// Writes these bytes at this offset of a file at rest, and syncs: two device calls. At each moment of it a crash may
/// leave nothing but the file with any bytes in that range and past its end.
pub fn write_down<D: Disk>(disk: &mut D, at: u64, bytes: &[u8]) -> Result<(), Failed>
    requires rest { IsTrue (D.told disk.old).is_honest → (D.told disk.old).now ≡ at_rest (D.told disk.old).now.seen }
    requires place { IsTrue (D.told disk.old).is_honest → at ≤ length (D.told disk.old).now.seen }
    requires room { at + length bytes.now ≤ (D.told disk.old).room }
    requires spare { 2 ≤ (D.told disk.old).spare }
    ensures used { IsUsed (is_err result) (D.told disk.old) (D.told disk.new) }
    ensures spare { (D.told disk.old).spare ≤ (D.told disk.new).spare + 2 }
    ensures written { OnOk result (IsTrue (D.told disk.old).is_honest → (D.told disk.new).now ≡ at_rest (put (D.told disk.old).now.seen at bytes.now)) }
    ensures moments { IsTrue (D.told disk.old).is_honest → Passes (EachLeft (Torn at (length bytes.now) (D.told disk.old).now.seen)) (D.told disk.old) (D.told disk.new) }
{
    disk.write_at(at, bytes)?;
    disk.sync()
}
