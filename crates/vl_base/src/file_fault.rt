ghost use Rattle.std.specs.Prelude.{◌≡◌};
ghost use Rattle.vl_base.specs.declared.file_fault.FileFault.TheVariants.{Memory};

use std::alloc::AllocError;

/// Why a file wasn't loaded.
#[derive(Clone, Copy, Debug, PartialEq, Eq)]
pub enum FileFault {
    /// The file couldn't be read. The count of faults rose in that call.
    Failed,
    /// The file has more than 1,048,576 bytes.
    TooLong,
    /// Memory was refused.
    Memory,
}

impl From<AllocError> for FileFault {
    ghost from_gives = { λ _ fault. fault ≡ Memory };

    fn from(_error: AllocError) -> FileFault {
        FileFault::Memory
    }
}
