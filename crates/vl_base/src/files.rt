ghost use Rattle.std.specs.Prelude.{◌≡◌, ℕ, Option, IfOk, IsErrOf};
ghost use Rattle.vl_base.specs.Files.{FileMap, HasFileCause, IsLoaded, IsTooLong};
ghost use Rattle.vl_base.specs.declared.file_fault.FileFault.TheVariants as faults;

use crate::FileFault;

/// The greatest length of a file that is loaded, in bytes.
pub const FILE_LIMIT: usize = 1_048_576;

/// Where files are loaded from, each by its name and as a whole. To load a file changes none.
pub trait Files {
    /// What the files have, where that is known: for each name its bytes, or none where there is no such
    /// file.
    ghost known: { Self → Option FileMap };

    /// How often a load has failed. It stands still at the largest `u64`.
    ghost failures: { Self → ℕ };

    /// The bytes of a file. `TooLong` comes where it has more than 1,048,576.
    fn load(&mut self, name: &str) -> Result<Vec<u8>, FileFault>
        ensures same { known self.new ≡ known self.old }
        ensures bytes { IfOk result (λ bytes. IsLoaded (known self.old) name.now bytes.items) }
        ensures long { IsErrOf result faults.TooLong → IsTooLong (known self.old) name.now }
        ensures cause { HasFileCause (failures self.old) (failures self.new) result };
}
