ghost use Rattle.std.specs.Prelude.{◌≡◌, ◌≤◌, ◌<◌, ◌+◌, ◌^◌, [], true, false, length, IsTrue, IfErr, IfOk, OnOk};
ghost use Rattle.vl_catalog.specs.Place.{shard_count};
ghost use Rattle.vl_disk.specs.Moment.{EachLeft, IsLeft, at_rest};
ghost use Rattle.vl_disk.specs.DiskView.{Passes};
ghost use Rattle.vl_disk.specs.Calls.{IsUsed};
ghost use Rattle.vl_record.specs.Grammar.{EndsAt, content_bytes, held_of};
ghost use Rattle.vl_record.specs.Reading.{is_open};
ghost use Rattle.vl_record.specs.Readers.{held_view};
ghost use Rattle.vl_record.specs.Stored.{IsNew, new_content};
ghost use Rattle.vl_journal.specs.Journals.{IsReady};
ghost use Rattle.vl_journal.specs.Loading.{IsCauseIn, IsCauseless, is_device, of_read};
ghost use Rattle.vl_journal.specs.Opening.{IsAtOpening, IsMade, IsOpenedAs};

use crate::creating::create;
use crate::load_error::LoadError;
use std::alloc::Global;
use vl_catalog::{Catalog, ShardNo};
use vl_disk::Disk;
use vl_record::{Held, ReadError, is_open, new_side, read};
use vl_values::items::Items;

// The whole file: a sync, its length, and one read. All of it is then on the disk.
fn read_file<D: Disk>(alloc: Global, disk: &mut D) -> Result<Vec<u8>, LoadError>
    requires spare { 1 ≤ (D.told disk.old).spare }
    ensures used { IsUsed (is_device result) (D.told disk.old) (D.told disk.new) }
    ensures spare { (D.told disk.old).spare ≤ (D.told disk.new).spare + 1 }
    ensures bytes { IfOk result (λ bytes. IsTrue (D.told disk.old).is_honest → bytes.items ≡ (D.told disk.old).now.seen) }
    ensures rest { OnOk result (IsTrue (D.told disk.old).is_honest → (D.told disk.new).now ≡ at_rest (D.told disk.old).now.seen) }
    ensures moments { IsTrue (D.told disk.old).is_honest → Passes (EachLeft (IsLeft (D.told disk.old).now)) (D.told disk.old) (D.told disk.new) }
    ensures kind { IfErr result (λ error. IsCauseless error) }
{
    let Ok(()) = disk.sync() else {
        return Err(LoadError::Device);
    };
    let Ok(len) = disk.len() else {
        return Err(LoadError::Device);
    };
    let mut bytes = Vec::new(alloc);
    let Ok(()) = bytes.resize(len as usize, 0) else {
        return Err(LoadError::Memory);
    };
    let Ok(()) = disk.read(0, bytes.as_mut_slice()) else {
        return Err(LoadError::Device);
    };
    Ok(bytes)
}

// Makes the side of a shard over a file that stores nothing.
fn make<D: Disk>(
    alloc: Global,
    disk: &mut D,
    shard: ShardNo,
    is_closed: bool,
) -> Result<Held, LoadError>
    requires rest { IsTrue (D.told disk.old).is_honest → (D.told disk.old).now ≡ at_rest (D.told disk.old).now.seen }
    requires short { IsTrue (D.told disk.old).is_honest → is_closed ≡ false → length (D.told disk.old).now.seen ≤ 1 }
    requires closed { IsTrue (D.told disk.old).is_honest → is_closed ≡ true → EndsAt [] (D.told disk.old).now.seen }
    requires room { 38 ≤ (D.told disk.old).room }
    requires spare { 6 ≤ (D.told disk.old).spare }
    ensures used { IsUsed (is_device result) (D.told disk.old) (D.told disk.new) }
    ensures spare { (D.told disk.old).spare ≤ (D.told disk.new).spare + 6 }
    ensures rest { OnOk result (IsTrue (D.told disk.old).is_honest → (D.told disk.new).now ≡ at_rest (D.told disk.new).now.seen) }
    ensures created { OnOk result (IsTrue (D.told disk.old).is_honest → EndsAt (content_bytes shard new_content) (D.told disk.new).now.seen) }
    ensures held { IfOk result (λ held. held_view held ≡ held_of shard new_content) }
    ensures moments { IsTrue (D.told disk.old).is_honest → Passes (EachLeft (IsMade shard)) (D.told disk.old) (D.told disk.new) }
    ensures kind { IfErr result (λ error. IsCauseless error) }
{
    let Ok(side) = new_side(alloc, shard) else {
        return Err(LoadError::Memory);
    };
    let Ok(()) = create(disk, is_closed, side.as_slice()) else {
        return Err(LoadError::Device);
    };
    Ok(Held {
        epoch: 1,
        last_tx: 0,
        rows: Items::new(alloc),
        first: 37,
        parts: Items::new(alloc),
        end: 37,
    })
}

fn load_error(error: ReadError) -> LoadError
    ensures { result ≡ of_read error }
{
    match error {
        ReadError::Memory => LoadError::Memory,
        ReadError::NotOurs(offset) => LoadError::NotOurs(offset),
    }
}

// What a file with an open file gate holds.
fn held_in(alloc: Global, catalog: &Catalog, shard: ShardNo, file: &[u8]) -> Result<Held, LoadError>
    requires shards { shard_count catalog.now.rings < 2 ^ 32 }
    requires open { is_open file.now ≡ true }
    ensures held { IfOk result (λ held. IsOpenedAs catalog.now shard file.now file.now (held_view held)) }
    ensures kind { is_device result ≡ false }
    ensures cause { IfErr result (λ error. IsCauseIn catalog.now shard file.now error) }
{
    match read(alloc, catalog, shard, file) {
        Ok(held) => Ok(held),
        Err(error) => Err(load_error(error)),
    }
}

/// Opens the file of a shard, and makes it where it is new: at most nine device calls. What it holds is read up to the
/// first closed gate.
pub(crate) fn load<D: Disk>(
    alloc: Global,
    disk: &mut D,
    catalog: &Catalog,
    shard: ShardNo,
) -> Result<Held, LoadError>
    requires shards { shard_count catalog.now.rings < 2 ^ 32 }
    ensures used { IsUsed (is_device result) (D.told disk.old) (D.told disk.new) }
    ensures spare { (D.told disk.old).spare ≤ (D.told disk.new).spare + 7 }
    ensures ready { IfOk result (λ held. IsTrue (D.told disk.old).is_honest → IsReady (D.told disk.new) held.end) }
    ensures held { IfOk result (λ held. IsTrue (D.told disk.old).is_honest → IsOpenedAs catalog.now shard (D.told disk.old).now.seen (D.told disk.new).now.seen (held_view held)) }
    ensures cause { IfErr result (λ error. IsTrue (D.told disk.old).is_honest → IsCauseIn catalog.now shard (D.told disk.old).now.seen error) }
    ensures moments { IsTrue (D.told disk.old).is_honest → Passes (EachLeft (IsAtOpening shard (D.told disk.old).now)) (D.told disk.old) (D.told disk.new) }
{
    let Ok(()) = disk.reserve(38, 7) else {
        return Err(LoadError::Memory);
    };
    let file = match read_file(alloc, disk) {
        Ok(file) => file,
        Err(error) => return Err(error),
    };
    if is_open(file.as_slice()) {
        return held_in(alloc, catalog, shard, file.as_slice());
    }
    make(alloc, disk, shard, file.len() >= 2)
}
