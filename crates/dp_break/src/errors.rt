//! Why what is asked of breakpoints is not done.

ghost use Rattle.std.specs.Prelude.{◌≡◌};
ghost use Rattle.dp_break.specs.declared.errors.BreakError.TheVariants.{Memory};

use dp_packet::ErrorCode;
use std::alloc::{AllocError, AllocFailed};
use thiserror::Error;

/// Why what was asked of breakpoints was not done.
#[derive(Clone, Copy, Debug, Error, PartialEq, Eq)]
pub enum BreakError {
    /// The code of the error response. DBGp 1.0, "Error Codes".
    #[error("error {0:?}")]
    Code(ErrorCode),
    /// Out of memory.
    #[error("out of memory")]
    Memory,
}

impl From<AllocError> for BreakError {
    ghost from_gives = { λ _ e. e ≡ Memory };

    fn from(_refused: AllocError) -> BreakError {
        BreakError::Memory
    }
}

impl<T: Drop> From<AllocFailed<T>> for BreakError {
    ghost from_gives = { λ _ e. e ≡ Memory };

    fn from(_refused: AllocFailed<T>) -> BreakError {
        BreakError::Memory
    }
}
