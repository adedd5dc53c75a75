ghost use Rattle.std.specs.Prelude.{◌≡◌, ◌≤◌, ◌<◌, ◌+◌, length, take, drop, true, false, IsTrue, IfOk, OnOk, is_err};
ghost use Rattle.vl_disk.specs.Moment.{IsLeft};
ghost use Rattle.vl_disk.specs.DiskView.{DiskView};
ghost use Rattle.vl_disk.specs.Calls.{IsCalled, IsUncalled, IsStill, IsWritten, IsSynced, IsRevived, IsDisarmed, after_arming};

use crate::{Pick, Stop};
use std::alloc::AllocError;
use vl_base::Failed;

/// A file that can fail and crash. `len`, `read`, `write_at` and `sync` are its device calls.
///
/// Between two syncs a crash may leave any bytes in each written range and past the old end, and the same bytes
/// elsewhere; its length is then between the least and the greatest since the last sync.
pub trait Disk {
    /// What the disk tells. Its facts about the file hold where `is_honest` is true; a file of the system tells
    /// its counts alone.
    ghost told: { Self → DiskView };

    /// Makes room: for a file of `len` bytes, and for `calls` writes, syncs and revivals.
    fn reserve(&mut self, len: u64, calls: u64) -> Result<(), AllocError>
        ensures uncalled { IsUncalled (told self.old) (told self.new) }
        ensures stopped { (told self.new).is_stopped ≡ (told self.old).is_stopped }
        ensures still { IsStill (told self.old) (told self.new) }
        ensures room { OnOk result (len ≤ (told self.new).room) }
        ensures calls { OnOk result (calls ≤ (told self.new).spare) }
        ensures spare { (told self.old).spare ≤ (told self.new).spare };

    /// The length of the file, in bytes.
    fn len(&mut self) -> Result<u64, Failed>
        ensures called { IsCalled (is_err result) (told self.old) (told self.new) }
        ensures still { IsStill (told self.old) (told self.new) }
        ensures spare { (told self.new).spare ≡ (told self.old).spare }
        ensures given { IsTrue (told self.old).is_honest → IfOk result (λ n. n ≡ length (told self.old).now.seen) };

    /// Fills the buffer with the bytes at this offset.
    fn read(&mut self, at: u64, buf: &mut [u8]) -> Result<(), Failed>
        requires { IsTrue (told self.old).is_honest → at + length buf.old ≤ length (told self.old).now.seen }
        ensures called { IsCalled (is_err result) (told self.old) (told self.new) }
        ensures still { IsStill (told self.old) (told self.new) }
        ensures spare { (told self.new).spare ≡ (told self.old).spare }
        ensures given { IsTrue (told self.old).is_honest → OnOk result (buf.new ≡ take (length buf.old) (drop at (told self.old).now.seen)) };

    /// Writes these bytes at this offset. A write that answers `Failed` counts as one that wrote its range.
    fn write_at(&mut self, at: u64, bytes: &[u8]) -> Result<(), Failed>
        requires place { IsTrue (told self.old).is_honest → at ≤ length (told self.old).now.seen }
        requires room { at + length bytes.now ≤ (told self.old).room }
        requires spare { 0 < (told self.old).spare }
        ensures called { IsCalled (is_err result) (told self.old) (told self.new) }
        ensures spare { (told self.old).spare ≤ (told self.new).spare + 1 }
        ensures written { IsTrue (told self.old).is_honest → IsWritten at bytes.now (is_err result) (told self.old) (told self.new) };

    /// After it a crash leaves what a read gives. One that answers `Failed` syncs nothing.
    fn sync(&mut self) -> Result<(), Failed>
        requires { 0 < (told self.old).spare }
        ensures called { IsCalled (is_err result) (told self.old) (told self.new) }
        ensures spare { (told self.old).spare ≤ (told self.new).spare + 1 }
        ensures synced { IsTrue (told self.old).is_honest → IsSynced (is_err result) (told self.old) (told self.new) };

    /// Lets a stop come at the `n`-th device call from now, in place of an armed one of its kind; 0 counts as 1.
    /// It is false exactly where the disk can't stop.
    fn arm(&mut self, n: u64, stop: Stop) -> bool
        ensures can { result ≡ (told self.old).can_stop }
        ensures armed { told self.new ≡ after_arming n stop (told self.old) };

    /// Takes an armed stop away and gives the number of calls up to it, or none where none is armed.
    fn disarm(&mut self) -> Option<(u64, Stop)>
        ensures { IsDisarmed result (told self.old) (told self.new) };

    /// Whether a crash has stopped the disk. Until it is revived each device call answers `Failed`.
    fn stopped(&self) -> bool
        ensures { result ≡ (told self.now).is_stopped };

    /// Restarts the disk. The file is then one that a crash may have left, by this pick, and all of it is on the
    /// disk. Armed stops stay.
    fn revive(&mut self, pick: Pick)
        requires { 0 < (told self.old).spare }
        ensures uncalled { IsUncalled (told self.old) (told self.new) }
        ensures stopped { (told self.new).is_stopped ≡ false }
        ensures spare { (told self.old).spare ≤ (told self.new).spare + 1 }
        ensures revived { IsTrue (told self.old).is_honest → IsRevived (told self.old) (told self.new) };

    /// What a read gives is among what a crash may leave.
    ghost itself: { (disk : Self) → IsTrue (told disk).is_honest → IsLeft (told disk).now (told disk).now.seen };
}
