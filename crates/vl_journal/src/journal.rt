ghost use Rattle.std.specs.Prelude.{◌≡◌, ◌≤◌, ◌<◌, ◌+◌, ◌^◌, ◌++◌, ◌∷◌, [], ℕ, List, length, IsTrue, IfErr, IfOk, OnErr, OnOk, is_err};
ghost use Rattle.vl_catalog.specs.declared.catalog.Catalog.{Catalog};
ghost use Rattle.vl_catalog.specs.declared.part.Part.{Part};
ghost use Rattle.vl_catalog.specs.Place.{shard_count};
ghost use Rattle.vl_disk.specs.Moment.{EachLeft};
ghost use Rattle.vl_disk.specs.DiskView.{Passes};
ghost use Rattle.vl_disk.specs.Calls.{IsDisarmed, IsStill, IsUncalled, IsUsed, after_arming};
ghost use Rattle.vl_record.specs.Grammar.{Content, IsRecord};
ghost use Rattle.vl_record.specs.Spelling.{record_bytes};
ghost use Rattle.vl_record.specs.Stored.{with_record};
ghost use Rattle.vl_journal.specs.Gate.{framed};
ghost use Rattle.vl_journal.specs.Opening.{IsAtOpening, IsOpenedAs};
ghost use Rattle.vl_journal.specs.Faults.{IsFaultOf, disk_of, held_of_opened, is_device_fault};
ghost use Rattle.vl_journal.specs.Journals.{IsReady, IsUp, StoresWithOrWithout};

use crate::appending::put_behind;
use crate::device::Device;
use crate::journal_fault::JournalFault;
use crate::load_error::LoadError;
use crate::loading::load;
use crate::opened::Opened;
use std::alloc::{AllocError, Global};
use std::marker::Model;
use vl_base::Failed;
use vl_catalog::{Catalog, ShardNo};
use vl_disk::{Disk, Stop};

/// The journal of a shard over the disk that it owns.
#[derive(Debug, Drop)]
pub struct Journal<D> {
    disk: D,
    end: u64,
}

impl<D> Model for Journal<D> {
    ghost use Rattle.vl_journal.specs.Journals.{JournalParts};

    ghost Value = { JournalParts D };

    ghost view = { λ j. record { disk = j.disk; end = j.end } };
}

impl<D: Disk> Journal<D> {
    /// Opens the file of a shard, and makes its side where it is new. All of the file is then on the disk.
    pub fn open(
        alloc: Global,
        disk: D,
        catalog: &Catalog,
        shard: ShardNo,
    ) -> Result<Opened<D>, JournalFault<D>>
        requires shards { shard_count catalog.now.rings < 2 ^ 32 }
        // `Device` is told only where the count of faults rose.
        ensures used { IsUsed (is_device_fault result) (D.told disk) (D.told (disk_of result)) }
        ensures spare { (D.told disk).spare ≤ (D.told (disk_of result)).spare + 7 }
        // What is given is what the file stores up to its first closed gate.
        ensures opened { IfOk result (λ o. IsTrue (D.told disk).is_honest → IsOpenedAs catalog.now shard (D.told disk).now.seen (D.told o.journal.disk).now.seen (held_of_opened o)) }
        ensures ready { IfOk result (λ o. IsTrue (D.told disk).is_honest → IsReady (D.told o.journal.disk) o.journal.end) }
        // `NotOurs` is told only of a file outside the format, with the offset of its first fault.
        ensures cause { IfErr result (λ fault. IsTrue (D.told disk).is_honest → IsFaultOf catalog.now shard (D.told disk).now.seen fault) }
        // At each moment a crash leaves what it might have left before, or what stores nothing.
        ensures moments { IsTrue (D.told disk).is_honest → Passes (EachLeft (IsAtOpening shard (D.told disk).now)) (D.told disk) (D.told (disk_of result)) }
    {
        let mut disk = disk;
        match load(alloc, &mut disk, catalog, shard) {
            Ok(held) => Ok(Opened {
                journal: Journal {
                    disk,
                    end: held.end as u64,
                },
                rows: held.rows,
                parts: held.parts,
                epoch: held.epoch,
                last_tx: held.last_tx,
                first: held.first as u64,
            }),
            Err(LoadError::Memory) => Err(JournalFault::Memory(disk)),
            Err(LoadError::Device) => Err(JournalFault::Device(disk)),
            Err(LoadError::NotOurs(offset)) => Err(JournalFault::NotOurs(disk, offset as u64)),
        }
    }

    /// The offset of the closed gate behind the last open record.
    pub fn end(&self) -> u64
        ensures { result ≡ self.now.end }
    {
        self.end
    }

    /// Makes room on the disk: for a file of `len` bytes, and for `calls` writes and syncs.
    pub fn reserve(&mut self, len: u64, calls: u64) -> Result<(), AllocError>
        ensures end { self.new.end ≡ self.old.end }
        ensures uncalled { IsUncalled (D.told self.old.disk) (D.told self.new.disk) }
        ensures stopped { (D.told self.new.disk).is_stopped ≡ (D.told self.old.disk).is_stopped }
        ensures still { IsStill (D.told self.old.disk) (D.told self.new.disk) }
        ensures room { OnOk result (len ≤ (D.told self.new.disk).room) }
        ensures calls { OnOk result (calls ≤ (D.told self.new.disk).spare) }
        ensures spare { (D.told self.old.disk).spare ≤ (D.told self.new.disk).spare }
    {
        self.disk.reserve(len, calls)
    }

    /// Appends a record behind the closed gate at the journal's end, in four device calls. `bytes` has the record's bytes
    /// and a closed gate behind them. It takes no memory. After `Device` the file stores the record or doesn't, and the
    /// next opening finds which.
    pub fn append(&mut self, bytes: &[u8]) -> Result<(), Device>
        requires ready { IsTrue (D.told self.old.disk).is_honest → IsReady (D.told self.old.disk) self.old.end }
        requires number { self.old.end + 1 + length bytes.now < 2 ^ 64 }
        requires room { self.old.end + 1 + length bytes.now ≤ (D.told self.old.disk).room }
        requires spare { 4 ≤ (D.told self.old.disk).spare }
        ensures used { IsUsed (is_err result) (D.told self.old.disk) (D.told self.new.disk) }
        ensures spare { (D.told self.old.disk).spare ≤ (D.told self.new.disk).spare + 4 }
        ensures end { OnOk result (self.new.end ≡ self.old.end + length bytes.now) }
        ensures ready { OnOk result (IsTrue (D.told self.old.disk).is_honest → IsReady (D.told self.new.disk) self.new.end) }
        ensures kept { OnErr result (self.new.end ≡ self.old.end) }
        // What is stored is what was, and this record.
        ensures appended { OnOk result (IsTrue (D.told self.old.disk).is_honest → (catalog : Catalog) (shard : ℕ) (content : Content) (parts : List Part) → IsUp catalog shard content (D.told self.old.disk) self.old.end → IsRecord catalog shard parts → bytes.now ≡ framed (record_bytes parts) → IsUp catalog shard (with_record parts content) (D.told self.new.disk) self.new.end) }
        // At each moment a crash leaves a file that stores the one or the other.
        ensures moments { IsTrue (D.told self.old.disk).is_honest → (catalog : Catalog) (shard : ℕ) (content : Content) (parts : List Part) → IsUp catalog shard content (D.told self.old.disk) self.old.end → IsRecord catalog shard parts → bytes.now ≡ framed (record_bytes parts) → Passes (EachLeft (StoresWithOrWithout catalog shard content parts)) (D.told self.old.disk) (D.told self.new.disk) }
    {
        match put_behind(&mut self.disk, self.end, bytes) {
            Ok(()) => {
                self.end += bytes.len() as u64;
                Ok(())
            }
            Err(Failed) => Err(Device),
        }
    }

    /// Lets a stop come at the `n`-th device call from now. It is false exactly where the disk can't stop.
    pub fn arm(&mut self, n: u64, stop: Stop) -> bool
        ensures end { self.new.end ≡ self.old.end }
        ensures can { result ≡ (D.told self.old.disk).can_stop }
        ensures armed { D.told self.new.disk ≡ after_arming n stop (D.told self.old.disk) }
    {
        self.disk.arm(n, stop)
    }

    /// Takes an armed stop away and gives the number of calls up to it, or none where none is armed.
    pub fn disarm(&mut self) -> Option<(u64, Stop)>
        ensures end { self.new.end ≡ self.old.end }
        ensures disarmed { IsDisarmed result (D.told self.old.disk) (D.told self.new.disk) }
    {
        self.disk.disarm()
    }

    /// Whether a crash has stopped the disk.
    pub fn stopped(&self) -> bool
        ensures { result ≡ (D.told self.now.disk).is_stopped }
    {
        self.disk.stopped()
    }

    /// The disk, whatever is stored on it.
    pub fn into_disk(self) -> D
        ensures { result ≡ self.disk }
    {
        self.disk
    }
}
