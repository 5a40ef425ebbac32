//! Why nothing is shown.

ghost use Rattle.std.specs.Prelude.{◌≡◌};
ghost use Rattle.dp_view.specs.declared.errors.ViewError.TheVariants.{Memory};

use dp_packet::ErrorCode;
use std::alloc::{AllocError, AllocFailed};
use thiserror::Error;

/// Why a view shows nothing.
#[derive(Clone, Copy, Debug, Error, PartialEq, Eq)]
pub enum ViewError {
    /// The code of the error response, DBGp 1.0, "Error Codes". Of this crate's calls: 301 where the stack has no such
    /// level, 302 where there is no such context, 300 where a name is no name of a property or nothing stands there,
    /// tried in this order. Calls of other crates that answer this type say which codes are theirs.
    #[error("error {0:?}")]
    Code(ErrorCode),
    /// Out of memory.
    #[error("out of memory")]
    Memory,
}

impl From<AllocError> for ViewError {
    ghost from_gives = { λ _ e. e ≡ Memory };

    fn from(_refused: AllocError) -> ViewError {
        ViewError::Memory
    }
}

impl<T: Drop> From<AllocFailed<T>> for ViewError {
    ghost from_gives = { λ _ e. e ≡ Memory };

    fn from(_refused: AllocFailed<T>) -> ViewError {
        ViewError::Memory
    }
}
