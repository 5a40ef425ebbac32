//! Refusals of the crews.

use std::alloc::AllocError;
use thiserror::Error;

/// Why not all were served.
#[derive(Clone, Copy, Debug, PartialEq, Eq, Error)]
pub enum AllError {
    /// A gate gave no link or no twin, or the dialer no twin.
    #[error("a gate or the dialer failed")]
    GateFault,
    /// No thread was started for a worker.
    #[error("no thread was started")]
    NoThread,
    /// What was served may be lost.
    #[error("out of memory")]
    Memory,
}

impl From<AllocError> for AllError {
    ghost use Rattle.std.specs.Prelude.{◌≡◌};
    ghost use Rattle.dp_crews.specs.declared.errors.AllError.TheVariants.{Memory as NoMemory};

    ghost from_gives = { λ _ e. e ≡ NoMemory };

    fn from(_: AllocError) -> AllError {
        AllError::Memory
    }
}
