ghost use Rattle.std.specs.Prelude.{◌≡◌, ◌≢◌, [], ℕ, true, Some, None, IfOk, OnOk, OnErr};
ghost use Rattle.vl_disk.specs.Sides.{kept};
ghost use Rattle.vl_disk.specs.FileDisk.{new_file, told_file};
ghost use Rattle.vl_disk.specs.Slots.{found, held_in};

use crate::slot::Slot;
use crate::slots::{add_slot, put_back, take_out};
use crate::{Disks, FileDisk, OpenFault, Sides};
use std::alloc::Global;
use std::fs;
use std::fs::{File, OpenOptions};
use std::marker::Model;
use std::rt::Files as System;

/// Disks over the files `shard-N.a` and `shard-N.b` of a folder. The first take makes the folder where it is missing
/// and locks it until the disks are dropped, so that no two programs write one folder. It tells its count of faults,
/// and not what the files have.
#[derive(Drop)]
pub struct FolderDisks<'a, R> {
    rt: &'a R,
    alloc: Global,
    path: &'a str,
    // The folder, locked, from the first take on.
    folder: Option<File>,
    slots: Vec<Slot<FileDisk>>,
    faults: u64,
}

impl<'a, R> Model for FolderDisks<'a, R> {
    ghost use Rattle.vl_disk.specs.FileDisk.{FileDiskState};
    ghost use Rattle.vl_disk.specs.Slots.{FolderState};

    ghost Value = { FolderState FileDiskState };

    ghost view = { λ d. record { slots = d.slots.items; faults = d.faults } };
}

impl<'a, R> FolderDisks<'a, R> {
    /// The disks of this folder, with the count of faults at 0. Nothing is opened yet.
    pub fn new(rt: &'a R, alloc: Global, path: &'a str) -> FolderDisks<'a, R>
        ensures { result ≡ record { slots = []; faults = 0 } }
    {
        FolderDisks {
            rt,
            alloc,
            path,
            folder: None,
            slots: Vec::new(alloc),
            faults: 0,
        }
    }
}

// Syncs a folder, so that the names in it are on the disk.
fn sync_folder<R: System<File = File>>(rt: &R, path: &str) -> Result<(), OpenFault> {
    let Ok(folder) = fs::open(rt, path) else {
        return Err(OpenFault::Failed);
    };
    let Ok(()) = folder.sync_all() else {
        return Err(OpenFault::Failed);
    };
    Ok(())
}

// Makes the folder where it is missing, and locks it.
fn lock_folder<R: System<File = File>>(
    rt: &R,
    alloc: Global,
    path: &str,
) -> Result<File, OpenFault> {
    let Ok(()) = fs::create_dir_all(rt, path) else {
        return Err(OpenFault::Failed);
    };
    let Ok(above) = format!(in alloc; "{path}/..") else {
        return Err(OpenFault::Memory);
    };
    sync_folder(rt, above.as_str())?;
    let Ok(folder) = fs::open(rt, path) else {
        return Err(OpenFault::Failed);
    };
    let Ok(()) = folder.try_lock() else {
        return Err(OpenFault::Failed);
    };
    Ok(folder)
}

// Opens the file of a side, and makes it where it is missing.
fn open_side<R: System<File = File>>(
    rt: &R,
    alloc: Global,
    path: &str,
    shard: u32,
    side: &str,
) -> Result<FileDisk, OpenFault>
    ensures { IfOk result (λ disk. disk ≡ new_file) }
{
    let Ok(name) = format!(in alloc; "{path}/shard-{shard}.{side}") else {
        return Err(OpenFault::Memory);
    };
    let mut how = OpenOptions::new();
    how.read(true).write(true).create(true);
    let Ok(file) = how.open(rt, name.as_str()) else {
        return Err(OpenFault::Failed);
    };
    Ok(FileDisk::new(file))
}

// Opens the files of a shard, and brings their names to the disk.
fn open_sides<R: System<File = File>>(
    rt: &R,
    alloc: Global,
    path: &str,
    shard: u32,
) -> Result<Sides<FileDisk>, OpenFault>
    ensures a { IfOk result (λ sides. sides.a ≡ new_file) }
    ensures b { IfOk result (λ sides. sides.b ≡ new_file) }
{
    let a = open_side(rt, alloc, path, shard, "a")?;
    let b = open_side(rt, alloc, path, shard, "b")?;
    sync_folder(rt, path)?;
    Ok(Sides { a, b })
}

impl<'a, R: System<File = File>> FolderDisks<'a, R> {
    // A take whose fault isn't counted yet.
    fn take_uncounted(&mut self, shard: u32) -> Result<Sides<FileDisk>, OpenFault>
        requires { found self.old.slots shard ≢ Some None }
        ensures a { IfOk result (λ sides. told_file sides.a ≡ (held_in told_file (told_file new_file) self.old.slots shard).a) }
        ensures b { IfOk result (λ sides. told_file sides.b ≡ (held_in told_file (told_file new_file) self.old.slots shard).b) }
        ensures out { OnOk result (found self.new.slots shard ≡ Some None) }
        ensures refused { OnErr result (self.new.slots ≡ self.old.slots) }
        ensures others { (other : ℕ) → other ≢ shard → found self.new.slots other ≡ found self.old.slots other }
        ensures faults { self.new.faults ≡ self.old.faults }
    {
        if let Some(sides) = take_out(&mut self.slots, shard) {
            return Ok(sides);
        }
        if self.folder.is_none() {
            let folder = lock_folder(self.rt, self.alloc, self.path)?;
            self.folder = Some(folder);
        }
        let sides = open_sides(self.rt, self.alloc, self.path, shard)?;
        let Ok(()) = add_slot(&mut self.slots, shard, None) else {
            return Err(OpenFault::Memory);
        };
        Ok(sides)
    }
}

impl<'a, R: System<File = File>> Disks for FolderDisks<'a, R> {
    type D = FileDisk;

    ghost held = { λ d. held_in told_file (told_file new_file) d.slots };

    ghost faults = { λ d. d.faults };

    fn take(&mut self, shard: u32) -> Result<Sides<FileDisk>, OpenFault> {
        let outcome = self.take_uncounted(shard);
        if matches!(outcome, Err(OpenFault::Failed)) {
            self.faults = self.faults.saturating_add(1);
        }
        outcome
    }

    fn give_back(&mut self, shard: u32, sides: Sides<FileDisk>)
        requires { (held_in told_file (told_file new_file) self.old.slots shard).is_out ≡ true }
        ensures back { held_in told_file (told_file new_file) self.new.slots shard ≡ kept (told_file sides.a) (told_file sides.b) }
        ensures others { (other : ℕ) → other ≢ shard → held_in told_file (told_file new_file) self.new.slots other ≡ held_in told_file (told_file new_file) self.old.slots other }
        ensures faults { self.new.faults ≡ self.old.faults }
    {
        put_back(&mut self.slots, shard, sides);
    }
}
