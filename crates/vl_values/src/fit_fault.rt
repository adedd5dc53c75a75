ghost use Rattle.std.specs.Prelude.{◌≡◌};
ghost use Rattle.vl_values.specs.declared.fit_fault.FitFault.TheVariants.{Memory};

use std::alloc::AllocError;

/// Why a column takes no value for a given one.
#[derive(Clone, Copy, Debug, PartialEq, Eq)]
pub enum FitFault {
    /// NULL, and the column may not hold it.
    Null,
    /// A number outside the range of the column's type.
    Range,
    /// A text that spells no number, and the column holds numbers.
    NotNumber,
    /// More bytes than the column's type has room for.
    TooLong,
    /// Memory was refused.
    Memory,
}

impl From<AllocError> for FitFault {
    ghost from_gives = { λ _ fault. fault ≡ Memory };

    fn from(_error: AllocError) -> FitFault {
        FitFault::Memory
    }
}
