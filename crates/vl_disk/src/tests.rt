use crate::{
    Disk, Disks, FolderDisks, MemoryDisk, MemoryDisks, OpenFault, Pick, Sides, Stop, write_down,
};
use std::alloc::{AllocError, Global};
use std::fs;
use std::test::Fail;

// The armed stop, the pick, and the file that the revival leaves after: write "12" at 0, sync, write "XYZ" at 4, sync.
static STOPS: [(u64, Stop, Pick, &[u8]); 16] = [
    (1, Stop::Crash, Pick::None, b"abcdef"),
    (1, Stop::Crash, Pick::All, b"12cdef"),
    (1, Stop::Crash, Pick::Half, b"1\0cdef"),
    (1, Stop::Crash, Pick::Gates, b"\xa7\xa7cdef"),
    (2, Stop::Crash, Pick::None, b"abcdef"),
    (2, Stop::Crash, Pick::All, b"12cdef"),
    (3, Stop::Crash, Pick::None, b"12cdef"),
    (3, Stop::Crash, Pick::All, b"12cdXYZ"),
    (3, Stop::Crash, Pick::Half, b"12cdX\0\0"),
    (3, Stop::Crash, Pick::Gates, b"12cd\xa7\xa7\xa7"),
    (4, Stop::Crash, Pick::None, b"12cdef"),
    (5, Stop::Crash, Pick::None, b"12cdXYZ"),
    (1, Stop::Fail, Pick::All, b"abcdXYZ"),
    (2, Stop::Fail, Pick::None, b"12cdXYZ"),
    (3, Stop::Fail, Pick::All, b"12cdef"),
    (4, Stop::Fail, Pick::None, b"12cdef"),
];

// Four device calls, and then a revival.
fn play(alloc: Global, stop: (u64, Stop), pick: Pick) -> Result<MemoryDisk, AllocError> {
    let mut disk = MemoryDisk::new(alloc, b"abcdef".to_vec(alloc)?, Vec::new(alloc))?;
    disk.reserve(8, 5)?;
    disk.arm(stop.0, stop.1);
    let _ = disk.write_at(0, b"12");
    let _ = disk.sync();
    let _ = disk.write_at(4, b"XYZ");
    let _ = disk.sync();
    disk.revive(pick);
    Ok(disk)
}

// The whole file, or nothing where a call fails.
fn whole<D: Disk>(alloc: Global, disk: &mut D) -> Result<Vec<u8>, AllocError> {
    let mut bytes = Vec::new(alloc);
    let Ok(len) = disk.len() else {
        return Ok(bytes);
    };
    bytes.resize(len as usize, 0)?;
    if disk.read(0, bytes.as_mut_slice()).is_err() {
        bytes.clear();
    }
    Ok(bytes)
}

#[test]
fn a_revival_leaves_what_its_pick_says(rt: HostRuntime) -> Result<(), Fail> {
    for (n, stop, pick, want) in STOPS {
        let mut disk = play(rt.alloc(), (n, stop), pick)?;
        let _ = disk.disarm();
        let bytes = whole(rt.alloc(), &mut disk)?;
        assert_eq!(rt; bytes.as_slice(), want);
    }
    Ok(())
}

#[test]
fn listed_calls_fail_and_are_counted(rt: HostRuntime) -> Result<(), Fail> {
    let alloc = rt.alloc();
    let mut disk = MemoryDisk::new(alloc, b"ab".to_vec(alloc)?, [2].to_vec(alloc)?)?;
    disk.reserve(4, 2)?;
    assert!(rt; disk.len() == Ok(2));
    assert!(rt; disk.len().is_err());
    assert!(rt; write_down(&mut disk, 2, b"c").is_ok());
    assert!(rt; disk.len() == Ok(3));
    assert_eq!(rt; disk.fault_count(), 1);
    Ok(())
}

#[test]
fn takes_fail_by_their_list(rt: HostRuntime) -> Result<(), Fail> {
    let alloc = rt.alloc();
    let mut disks = MemoryDisks::new(alloc, [1].to_vec(alloc)?);
    let a = MemoryDisk::new(alloc, b"ab".to_vec(alloc)?, Vec::new(alloc))?;
    let b = MemoryDisk::new(alloc, Vec::new(alloc), Vec::new(alloc))?;
    disks.add(5, Sides { a, b })?;
    assert!(rt; matches!(disks.take(5), Err(OpenFault::Failed)));
    let mut sides = disks.take(5)?;
    assert!(rt; sides.a.len() == Ok(2));
    disks.give_back(5, sides);
    assert_eq!(rt; disks.fault_count(), 1);
    Ok(())
}

#[test]
fn a_shard_without_disks_has_empty_ones(rt: HostRuntime) -> Result<(), Fail> {
    let mut disks = MemoryDisks::new(rt.alloc(), Vec::new(rt.alloc()));
    let mut sides = disks.take(3)?;
    assert!(rt; sides.a.len() == Ok(0));
    assert!(rt; sides.b.len() == Ok(0));
    Ok(())
}

#[test]
fn files_of_a_folder_carry_the_bytes(rt: HostRuntime) -> Result<(), Fail> {
    let alloc = rt.alloc();
    let path = "vl_disk_test/folder";
    let mut disks = FolderDisks::new(&rt, alloc, path);
    let mut sides = disks.take(7)?;
    sides.a.reserve(16, 8)?;
    assert!(rt; sides.a.write_at(0, b"abcd").is_ok());
    assert!(rt; sides.a.sync().is_ok());
    assert!(rt; sides.a.write_at(1, b"XY").is_ok());
    assert!(rt; sides.a.write_at(4, b"e").is_ok());
    let bytes = whole(alloc, &mut sides.a)?;
    assert_eq!(rt; bytes.as_slice(), b"aXYde".as_slice());
    disks.give_back(7, sides);

    // Another program would find the folder locked.
    let mut others = FolderDisks::new(&rt, alloc, path);
    assert!(rt; matches!(others.take(7), Err(OpenFault::Failed)));

    let found = fs::read(&rt, "vl_disk_test/folder/shard-7.a")?;
    assert_eq!(rt; found.as_slice(), b"aXYde".as_slice());
    assert!(rt; fs::remove_dir_all(&rt, "vl_disk_test").is_ok());
    Ok(())
}
