use crate::refused::Refused;
use crate::text::joined;
use std::alloc::{AllocError, AllocFailed, Global};
use vl_values::bytes::Bytes;

/// Why a catalog wasn't loaded.
#[derive(Drop)]
pub enum LoadFault {
    /// A file couldn't be loaded. The count of faults rose.
    Failed,
    /// The file of this name has more than 1,048,576 bytes.
    TooLong { file: Bytes },
    Refused(Refused),
    Memory,
}

impl From<AllocError> for LoadFault {
    ghost use Rattle.std.specs.Prelude.{◌≡◌};
    ghost use Rattle.vl_load.specs.declared.load_fault.LoadFault.TheVariants as faults;

    ghost from_gives = { λ _ fault. fault ≡ faults.Memory };

    fn from(_error: AllocError) -> LoadFault {
        LoadFault::Memory
    }
}

impl<T: Drop> From<AllocFailed<T>> for LoadFault {
    ghost use Rattle.std.specs.Prelude.{◌≡◌};
    ghost use Rattle.vl_load.specs.declared.load_fault.LoadFault.TheVariants as faults;

    ghost from_gives = { λ _ fault. fault ≡ faults.Memory };

    fn from(_error: AllocFailed<T>) -> LoadFault {
        LoadFault::Memory
    }
}

impl LoadFault {
    ghost use Rattle.std.specs.Prelude.{◌≡◌, IfOk};
    ghost use Rattle.vl_load.specs.Lines.{fault_line};

    /// The line that tells the fault, with its LF; nothing where a load failed or memory was refused.
    pub fn line(&self, alloc: Global) -> Result<Vec<u8>, AllocError>
        ensures { IfOk result (λ line. line.items ≡ fault_line self.now) }
    {
        match self {
            LoadFault::Failed | LoadFault::Memory => Ok(Vec::new(alloc)),
            LoadFault::TooLong { file } => {
                joined(alloc, &[b"file ", file.as_slice(), b" is too long\n"])
            }
            LoadFault::Refused(fault) => fault.line(alloc),
        }
    }
}
