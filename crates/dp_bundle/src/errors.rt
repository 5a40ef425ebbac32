//! Why files make no program.

ghost use Rattle.std.specs.Prelude.{◌≡◌};

use dp_bytes::Memory;
use dp_parse::ParseError;
use std::alloc::AllocFailed;
use thiserror::Error;

/// Why files are no program. A file is named by its number, from 0.
#[derive(Debug, Drop, Error)]
pub enum BundleError {
    /// The text of the file is no program, for this reason.
    #[error("{error}")]
    Source { file: u32, error: ParseError },
    /// The file is longer than [`FILE_LIMIT`](dp_tree::FILE_LIMIT).
    #[error("file {file} is too long")]
    TooLong { file: u32 },
    /// Out of memory.
    #[error("out of memory")]
    Memory,
}

impl From<Memory> for BundleError {
    ghost use Rattle.dp_bundle.specs.declared.errors.BundleError.TheVariants as error;

    ghost from_gives = { λ _ e. e ≡ error.Memory };

    fn from(_refused: Memory) -> BundleError {
        BundleError::Memory
    }
}

impl<T: Drop> From<AllocFailed<T>> for BundleError {
    ghost use Rattle.dp_bundle.specs.declared.errors.BundleError.TheVariants as error;

    ghost from_gives = { λ _ e. e ≡ error.Memory };

    fn from(_refused: AllocFailed<T>) -> BundleError {
        BundleError::Memory
    }
}
