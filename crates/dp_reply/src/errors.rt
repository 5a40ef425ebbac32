//! Why a text is no packet.

use dp_markup::MarkupError;
use std::alloc::{AllocError, AllocFailed};
use thiserror::Error;

/// Why a text was not read as a packet.
#[derive(Clone, Copy, Debug, Error, PartialEq, Eq)]
pub enum ReplyError {
    /// The text is no markup within 64 levels, or its element is no packet.
    #[error("no DBGp packet")]
    NotDbgp,
    /// Out of memory.
    #[error("out of memory")]
    Memory,
}

impl From<AllocError> for ReplyError {
    ghost use Rattle.std.specs.Prelude.{◌≡◌};
    ghost use Rattle.dp_reply.specs.declared.errors.ReplyError.TheVariants.{Memory as OutOfMemory};

    ghost from_gives = { λ _ e. e ≡ OutOfMemory };

    fn from(_: AllocError) -> ReplyError {
        ReplyError::Memory
    }
}

impl<T: Drop> From<AllocFailed<T>> for ReplyError {
    ghost use Rattle.std.specs.Prelude.{◌≡◌};
    ghost use Rattle.dp_reply.specs.declared.errors.ReplyError.TheVariants.{Memory as OutOfMemory};

    ghost from_gives = { λ _ e. e ≡ OutOfMemory };

    fn from(_: AllocFailed<T>) -> ReplyError {
        ReplyError::Memory
    }
}

impl From<MarkupError> for ReplyError {
    ghost use Rattle.std.specs.Prelude.{◌≡◌};
    ghost use Rattle.dp_reply.specs.Verdict.{refusal_of};

    ghost from_gives = { λ why e. e ≡ refusal_of why };

    fn from(why: MarkupError) -> ReplyError {
        match why {
            MarkupError::Memory => ReplyError::Memory,
            MarkupError::BadMarkup { offset: _ } => ReplyError::NotDbgp,
            MarkupError::TooDeep => ReplyError::NotDbgp,
        }
    }
}
