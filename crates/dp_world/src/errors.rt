//! Why a replay does not put its whole transcript.

use std::alloc::AllocError;
use thiserror::Error;

/// Why not the whole transcript was put.
#[derive(Clone, Copy, Debug, PartialEq, Eq, Error)]
pub enum ReplayError {
    /// The sink failed.
    #[error("the output failed")]
    OutFault,
    #[error("out of memory")]
    Memory,
}

impl From<AllocError> for ReplayError {
    ghost use Rattle.std.specs.Prelude.{◌≡◌};
    ghost use Rattle.dp_world.specs.declared.errors.ReplayError.TheVariants.{Memory as OutOfMemory};

    ghost from_gives = { λ _ e. e ≡ OutOfMemory };

    fn from(_: AllocError) -> ReplayError {
        ReplayError::Memory
    }
}
