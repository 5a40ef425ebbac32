//! Why held bytes begin no body, and why a text is no request.

ghost use Rattle.std.specs.Prelude.{◌≡◌};
ghost use Rattle.dp_bodies.specs.Received.{refused_at};
ghost use Rattle.dp_bodies.specs.declared.errors.DapError.TheVariants.{Memory};

use std::alloc::{AllocError, AllocFailed};
use thiserror::Error;

/// Why held bytes begin no frame of a body.
#[derive(Clone, Copy, Debug, PartialEq, Eq, Error)]
pub enum BodyError {
    /// The first byte with which no frame begins. Its offset counts from the first byte of the stream.
    #[error("bad head at offset {offset}")]
    BadHead { offset: u64 },
    /// The number of the first digits that pass the limit of a body.
    #[error("too long: {length}")]
    TooLong { length: u64 },
}

impl BodyError {
    /// The place in the stream where no frame begins. What is held begins at this offset, and so does a frame whose
    /// length passes the limit. Takes no memory.
    pub fn place(self, start: u64) -> u64
        ensures { result ≡ refused_at self start }
    {
        match self {
            BodyError::BadHead { offset } => offset,
            BodyError::TooLong { length: _ } => start,
        }
    }
}

/// Why a text gave no request.
#[derive(Clone, Copy, Debug, PartialEq, Eq, Error)]
pub enum DapError {
    /// The text is no request.
    #[error("no request")]
    NotRequest,
    /// Out of memory.
    #[error("out of memory")]
    Memory,
}

impl From<AllocError> for DapError {
    ghost from_gives = { λ _ e. e ≡ Memory };

    fn from(_refused: AllocError) -> DapError {
        DapError::Memory
    }
}

impl<T: Drop> From<AllocFailed<T>> for DapError {
    ghost from_gives = { λ _ e. e ≡ Memory };

    fn from(_refused: AllocFailed<T>) -> DapError {
        DapError::Memory
    }
}
