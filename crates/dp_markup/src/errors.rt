//! Why bytes were not read as markup.

use std::alloc::{AllocError, AllocFailed};
use thiserror::Error;

/// Why bytes were not read as markup.
#[derive(Debug, Drop, Error)]
pub enum MarkupError {
    /// No markup begins with the bytes up to and with the one at this offset; at the length of the
    /// bytes their end is what is wrong.
    #[error("bad markup at byte {offset}")]
    BadMarkup { offset: usize },
    /// More than 64 elements would be open.
    #[error("elements nest too deep")]
    TooDeep,
    #[error("out of memory")]
    Memory,
}

impl From<AllocError> for MarkupError {
    ghost use Rattle.std.specs.Prelude.{◌≡◌};
    ghost use Rattle.dp_markup.specs.declared.errors.MarkupError.TheVariants.{Memory as OutOfMemory};

    ghost from_gives = { λ _ e. e ≡ OutOfMemory };

    fn from(_: AllocError) -> MarkupError {
        MarkupError::Memory
    }
}

impl<T: Drop> From<AllocFailed<T>> for MarkupError {
    ghost use Rattle.std.specs.Prelude.{◌≡◌};
    ghost use Rattle.dp_markup.specs.declared.errors.MarkupError.TheVariants.{Memory as OutOfMemory};

    ghost from_gives = { λ _ e. e ≡ OutOfMemory };

    fn from(_: AllocFailed<T>) -> MarkupError {
        MarkupError::Memory
    }
}
