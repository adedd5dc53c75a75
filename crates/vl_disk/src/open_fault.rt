ghost use Rattle.std.specs.Prelude.{◌≡◌};
ghost use Rattle.vl_disk.specs.declared.open_fault.OpenFault.TheVariants.{Memory};

use std::alloc::AllocError;

/// Why the disks of a shard weren't handed out.
#[derive(Clone, Copy, Debug, PartialEq, Eq)]
pub enum OpenFault {
    /// They couldn't be opened. The count of faults rose in that call.
    Failed,
    /// Memory was refused.
    Memory,
}

impl From<AllocError> for OpenFault {
    ghost from_gives = { λ _ fault. fault ≡ Memory };

    fn from(_error: AllocError) -> OpenFault {
        OpenFault::Memory
    }
}
