ghost use Rattle.std.specs.Prelude.{◌≤◌, ◌<◌, ◌+◌, ◌^◌, IsTrue};
ghost use Rattle.vl_journal.specs.Journals.{IsReady};

use crate::{Journal, JournalFault};
use std::alloc::Global;
use std::test::Fail;
use vl_catalog::Catalog;
use vl_disk::{Disk, MemoryDisk, Pick, Stop};

// Side a of shard 0 of the built-in catalog: two records of one part each, then a third that is torn behind its closed gate
// and whose bytes look like open gates.
static FILE: [u8; 133] = [
    0xa7, b'V', b'L', b'S', b'H', b'A', b'R', b'D', b'1', 0, 0, 0, 0, 1, 0, 0, 0, 0, 0, 0, 0, 0, 0,
    0, 0, 0, 0, 0, 0, 0, 0, 0, 0, 0, 0, 0, 0, 0xa7, 51, 0, 0, 0, 1, 0, 5, 0, 0, 0, 0, 0, 0, 0, 1,
    1, 0, 0, 0, 0, 0, 0, 0, 1, 0, 2, 1, 0, 0, 0, 0, 0, 0, 0, 1, 2, 0, 2, 1, 0, 0, 0, 0, 0, 0, 0, 2,
    7, 0, 0, 0, 0, 0, 0, 0, 0xa7, 31, 0, 0, 0, 1, 0, 6, 0, 0, 0, 0, 0, 0, 0, 1, 1, 0, 0, 0, 0, 0,
    0, 0, 1, 0, 2, 1, 0, 0, 0, 0, 0, 0, 0, 0, 0, 0xa7, 0xa7, 0xa7,
];

// The second record of it and a closed gate.
static RECORD: [u8; 36] = [
    31, 0, 0, 0, 1, 0, 6, 0, 0, 0, 0, 0, 0, 0, 1, 1, 0, 0, 0, 0, 0, 0, 0, 1, 0, 2, 1, 0, 0, 0, 0,
    0, 0, 0, 0, 0,
];

static PICKS: [Pick; 4] = [Pick::None, Pick::All, Pick::Half, Pick::Gates];

// An opened file: how many parts it has, and the journal's end; or the offset of its fault and 0.
fn found(alloc: Global, catalog: &Catalog, disk: MemoryDisk) -> Result<(usize, u64), Fail> {
    let Some(_) = catalog.shard_count() else {
        return Err("shards that can be counted".into());
    };
    match Journal::open(alloc, disk, catalog, 0) {
        Ok(opened) => Ok((opened.parts.len(), opened.journal.end())),
        Err(JournalFault::NotOurs(_, offset)) => Ok((offset as usize, 0)),
        Err(_) => Err("an opening".into()),
    }
}

#[test]
fn each_prefix_of_a_file_is_told(rt: HostRuntime) -> Result<(), Fail> {
    let alloc = rt.alloc();
    let catalog = Catalog::a(alloc)?;
    for len in 0..=FILE.len() {
        let want = match len {
            0 | 1 => (0, 37),
            130.. => (2, 129),
            _ => (len, 0),
        };
        let disk = MemoryDisk::new(alloc, FILE[..len].to_vec(alloc)?, Vec::new(alloc))?;
        assert_eq!(rt; found(alloc, &catalog, disk)?, want);
    }
    Ok(())
}

// A stop at each device call of a creation, with each pick: nothing is stored then.
#[test]
fn a_creation_that_stops_stores_nothing(rt: HostRuntime) -> Result<(), Fail> {
    let alloc = rt.alloc();
    let catalog = Catalog::a(alloc)?;
    let Some(_) = catalog.shard_count() else {
        return Err("shards that can be counted".into());
    };
    for calls in 1..9 {
        for pick in PICKS {
            let mut disk = MemoryDisk::new(alloc, Vec::new(alloc), Vec::new(alloc))?;
            disk.reserve(64, 32)?;
            disk.arm(calls, Stop::Crash);
            let Err(JournalFault::Device(mut disk)) = Journal::open(alloc, disk, &catalog, 0) else {
                return Err("a stop".into());
            };
            disk.reserve(64, 1)?;
            disk.revive(pick);
            assert_eq!(rt; found(alloc, &catalog, disk)?, (0, 37));
        }
    }
    Ok(())
}

// How many appends are stored, and where the journal then ends.
static STORED: [(usize, u64); 4] = [(0, 37), (1, 73), (2, 109), (3, 145)];

// How many of three appends are done before one fails.
fn done_of<D: Disk>(journal: &mut Journal<D>) -> usize
    requires ready { IsTrue (D.told journal.old.disk).is_honest → IsReady (D.told journal.old.disk) journal.old.end }
    requires number { journal.old.end + 109 < 2 ^ 64 }
    requires room { journal.old.end + 109 ≤ (D.told journal.old.disk).room }
    requires spare { 12 ≤ (D.told journal.old.disk).spare }
    ensures { result ≤ 3 }
{
    let Ok(()) = journal.append(&RECORD) else {
        return 0;
    };
    let Ok(()) = journal.append(&RECORD) else {
        return 1;
    };
    let Ok(()) = journal.append(&RECORD) else {
        return 2;
    };
    3
}

// A stop at each device call of three appends, with each pick: each that was told as done is stored, and the one that
// stopped is or isn't.
#[test]
fn an_append_that_stops_is_stored_or_not(rt: HostRuntime) -> Result<(), Fail> {
    let alloc = rt.alloc();
    let catalog = Catalog::a(alloc)?;
    let Some(_) = catalog.shard_count() else {
        return Err("shards that can be counted".into());
    };
    for calls in 1..13 {
        for pick in PICKS {
            let disk = MemoryDisk::new(alloc, Vec::new(alloc), Vec::new(alloc))?;
            let Ok(opened) = Journal::open(alloc, disk, &catalog, 0) else {
                return Err("an opening".into());
            };
            let mut journal = opened.journal;
            if journal.end() != 37 {
                return Err("a side without records".into());
            }
            journal.reserve(256, 16)?;
            journal.arm(calls, Stop::Crash);
            let done = done_of(&mut journal);
            let mut disk = journal.into_disk();
            disk.reserve(256, 1)?;
            disk.revive(pick);
            let told = found(alloc, &catalog, disk)?;
            let stored = STORED.get(done) == Some(&told);
            assert!(rt; stored || STORED.get(done + 1) == Some(&told));
        }
    }
    Ok(())
}
