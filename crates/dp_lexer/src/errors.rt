//! Why bytes have no tokens.

ghost use Rattle.std.specs.Prelude.{◌≡◌};

use std::alloc::{AllocError, AllocFailed};
use thiserror::Error;

/// Why bytes have no tokens, with the least offset at which something is wrong.
#[derive(Clone, Copy, Debug, Error, PartialEq, Eq)]
pub enum LexError {
    /// A byte that no token may have here.
    #[error("bad byte at offset {offset}")]
    BadByte { offset: u32 },
    /// A quoted text without its end, at its opening quote.
    #[error("open string at offset {offset}")]
    OpenString { offset: u32 },
    /// A comment without its end, at its opening mark.
    #[error("open comment at offset {offset}")]
    OpenComment { offset: u32 },
    /// A number above 9,223,372,036,854,775,807, at its first digit.
    #[error("wide number at offset {offset}")]
    WideNumber { offset: u32 },
    /// Out of memory.
    #[error("out of memory")]
    Memory,
}

impl From<AllocError> for LexError {
    ghost use Rattle.dp_lexer.specs.declared.errors.LexError.TheVariants.{Memory};

    ghost from_gives = { λ _ e. e ≡ Memory };

    fn from(_refused: AllocError) -> LexError {
        LexError::Memory
    }
}

impl<T: Drop> From<AllocFailed<T>> for LexError {
    ghost use Rattle.dp_lexer.specs.declared.errors.LexError.TheVariants.{Memory};

    ghost from_gives = { λ _ e. e ≡ Memory };

    fn from(_refused: AllocFailed<T>) -> LexError {
        LexError::Memory
    }
}
