ghost use Rattle.std.specs.Prelude.{◌≡◌};
ghost use Rattle.vl_grammar.specs.declared.read_error.ReadError.TheVariants.{Memory};

use std::alloc::{AllocError, AllocFailed};

/// Why tokens couldn't be read.
#[derive(Clone, Copy, Debug)]
pub enum ReadError {
    Memory,
    /// How many tokens are left from the first one on that nothing continues.
    Fault(usize),
}

impl From<AllocError> for ReadError {
    ghost from_gives = { λ _ e. e ≡ Memory };

    fn from(_e: AllocError) -> ReadError {
        ReadError::Memory
    }
}

impl<T: Drop> From<AllocFailed<T>> for ReadError {
    ghost from_gives = { λ _ e. e ≡ Memory };

    fn from(_e: AllocFailed<T>) -> ReadError {
        ReadError::Memory
    }
}
