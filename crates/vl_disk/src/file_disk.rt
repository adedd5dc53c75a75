ghost use Rattle.std.specs.Prelude.{◌≡◌};
ghost use Rattle.vl_disk.specs.FileDisk.{new_file, nothing_left, told_file};

use crate::{Disk, Pick, Stop};
use std::alloc::AllocError;
use std::fs::File;
use std::marker::Model;
use std::os::unix::fs::FileExt;
use vl_base::Failed;

/// A disk over a file of the system. It tells its counts and not what the file has, can't stop, and takes no memory.
/// A call that a signal interrupts is made again.
#[derive(Drop)]
pub struct FileDisk {
    file: File,
    faults: u64,
    room: u64,
    spare: u64,
}

impl Model for FileDisk {
    ghost use Rattle.vl_disk.specs.FileDisk.{FileDiskState};

    ghost Value = { FileDiskState };

    ghost view = { λ d. record { faults = d.faults; room = d.room; spare = d.spare } };
}

impl FileDisk {
    /// A disk over this file, which was opened for reading and writing.
    pub fn new(file: File) -> FileDisk
        ensures { result ≡ new_file }
    {
        FileDisk {
            file,
            faults: 0,
            room: 0,
            spare: 0,
        }
    }
}

impl Disk for FileDisk {
    ghost told = { told_file };

    ghost itself = { λ d honest. nothing_left };

    fn reserve(&mut self, len: u64, calls: u64) -> Result<(), AllocError> {
        self.room = self.room.max(len);
        self.spare = self.spare.max(calls);
        Ok(())
    }

    fn len(&mut self) -> Result<u64, Failed> {
        let Ok(about) = self.file.metadata() else {
            self.faults = self.faults.saturating_add(1);
            return Err(Failed);
        };
        Ok(about.len())
    }

    fn read(&mut self, at: u64, buf: &mut [u8]) -> Result<(), Failed> {
        let Ok(()) = self.file.read_exact_at(buf, at) else {
            self.faults = self.faults.saturating_add(1);
            return Err(Failed);
        };
        Ok(())
    }

    fn write_at(&mut self, at: u64, bytes: &[u8]) -> Result<(), Failed> {
        self.spare -= 1;
        let Ok(()) = self.file.write_all_at(bytes, at) else {
            self.faults = self.faults.saturating_add(1);
            return Err(Failed);
        };
        Ok(())
    }

    fn sync(&mut self) -> Result<(), Failed> {
        self.spare -= 1;
        let Ok(()) = self.file.sync_all() else {
            self.faults = self.faults.saturating_add(1);
            return Err(Failed);
        };
        Ok(())
    }

    fn arm(&mut self, n: u64, stop: Stop) -> bool {
        let _ = (n, stop);
        false
    }

    fn disarm(&mut self) -> Option<(u64, Stop)> {
        None
    }

    fn stopped(&self) -> bool {
        false
    }

    fn revive(&mut self, pick: Pick) {
        let _ = pick;
        self.spare -= 1;
    }
}
