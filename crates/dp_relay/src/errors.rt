//! Refusals of the relay.

use std::alloc::AllocError;
use thiserror::Error;

/// Why a registration was not answered.
#[derive(Clone, Copy, Debug, PartialEq, Eq, Error)]
pub enum RelayError {
    /// The link failed where it was read. Nothing was asked of the registry.
    #[error("the link failed where it was read")]
    ReadFault,
    /// The link failed where it was written. What was asked stands.
    #[error("the link failed where it was written")]
    WriteFault,
    /// 4,097 bytes came, and no NUL among them. Nothing was asked of the registry.
    #[error("the command is too long")]
    TooLong,
    /// What was asked stands, or nothing was.
    #[error("out of memory")]
    Memory,
}

impl From<AllocError> for RelayError {
    ghost use Rattle.std.specs.Prelude.{◌≡◌};
    ghost use Rattle.dp_relay.specs.declared.errors.RelayError.TheVariants.{Memory as OutOfMemory};

    ghost from_gives = { λ _ e. e ≡ OutOfMemory };

    fn from(_: AllocError) -> RelayError {
        RelayError::Memory
    }
}
