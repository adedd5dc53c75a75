ghost use Rattle.std.specs.Prelude.{◌≡◌, ◌≤◌, None, length, IfOk, IsErrOf};
ghost use Rattle.std.specs.Io.{ReadsAtMost};
ghost use Rattle.vl_base.specs.Fakes.{is_failed};
ghost use Rattle.vl_base.specs.Files.{HasFileCause, IsLoaded, IsTooLong, file_limit};
ghost use Rattle.vl_base.specs.declared.file_fault.FileFault.TheVariants as faults;

use crate::files::FILE_LIMIT;
use crate::memory_files::is_failed;
use crate::std_source::read_uninterrupted;
use crate::{FileFault, Files};
use std::alloc::Global;
use std::fs;
use std::io::Read;
use std::marker::Model;
use std::rt::Files as System;

/// Files of the system, by their paths. It tells its count of faults, and not what the files have. A
/// read that a signal interrupts is made again.
#[derive(Drop)]
pub struct FolderFiles<'a, R> {
    rt: &'a R,
    alloc: Global,
    faults: u64,
}

impl<'a, R> Model for FolderFiles<'a, R> {
    ghost use Rattle.std.specs.Prelude.{ℕ};

    ghost Value = { ℕ };

    ghost view = { λ f. f.faults };
}

impl<'a, R> FolderFiles<'a, R> {
    /// The system's files, with the count of faults at 0.
    pub fn new(rt: &'a R, alloc: Global) -> FolderFiles<'a, R>
        ensures { result ≡ 0 }
    {
        FolderFiles {
            rt,
            alloc,
            faults: 0,
        }
    }
}

// How much is read of a file at once.
const PIECE: usize = 4096;

// Adds the next bytes of a reader, and tells whether there were any.
fn add_piece<R: Read>(reader: &mut R, bytes: &mut Vec<u8>) -> Result<bool, FileFault>
    requires { length bytes.old.items ≤ file_limit }
    ensures { length bytes.new.items ≤ file_limit }
{
    let mut piece = [0_u8; PIECE];
    let Ok(given) = read_uninterrupted(reader, &mut piece) else {
        return Err(FileFault::Failed);
    };
    if given > FILE_LIMIT - bytes.len() {
        return Err(FileFault::TooLong);
    }
    bytes.extend_from_slice(&piece[..given])?;
    Ok(given > 0)
}

fn read_whole<R: Read>(alloc: Global, reader: &mut R) -> Result<Vec<u8>, FileFault>
    ensures { IfOk result (λ bytes. length bytes.items ≤ file_limit) }
{
    let mut bytes = Vec::new(alloc);
    for _ in 0..u64::MAX {
        if !add_piece(reader, &mut bytes)? {
            return Ok(bytes);
        }
    }
    Err(FileFault::Failed)
}

fn open_whole<R: System>(rt: &R, alloc: Global, name: &str) -> Result<Vec<u8>, FileFault>
    ensures { IfOk result (λ bytes. length bytes.items ≤ file_limit) }
{
    let Ok(mut file) = fs::open(rt, name) else {
        return Err(FileFault::Failed);
    };
    read_whole(alloc, &mut file)
}

impl<'a, R: System> Files for FolderFiles<'a, R> {
    ghost known = { λ _. None };

    ghost failures = { λ f. f };

    fn load(&mut self, name: &str) -> Result<Vec<u8>, FileFault> {
        let outcome = open_whole(self.rt, self.alloc, name);
        if is_failed(&outcome) {
            self.faults = self.faults.saturating_add(1);
        }
        outcome
    }
}
