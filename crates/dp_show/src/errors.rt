//! Why not all that is read was shown.

use std::alloc::{AllocError, AllocFailed};
use thiserror::Error;

/// Why not all that is read was shown.
#[derive(Clone, Copy, Debug, PartialEq, Eq, Error)]
pub enum ShowError {
    /// The input ended inside a frame.
    #[error("the input ended inside a frame")]
    PeerEnd,
    /// Where a packet has to stand none does. The offset counts from the first byte read: to the first byte with which
    /// no frame goes on, to a frame whose length passes the limit, or to a frame whose text is no markup within 64
    /// levels.
    #[error("bad packet at offset {offset}")]
    BadPacket { offset: u64 },
    /// The input failed.
    #[error("the input failed")]
    ReadFault,
    /// The output failed.
    #[error("the output failed")]
    OutFault,
    #[error("out of memory")]
    Memory,
}

impl From<AllocError> for ShowError {
    ghost use Rattle.std.specs.Prelude.{◌≡◌};
    ghost use Rattle.dp_show.specs.declared.errors.ShowError.TheVariants.{Memory as OutOfMemory};

    ghost from_gives = { λ _ e. e ≡ OutOfMemory };

    fn from(_: AllocError) -> ShowError {
        ShowError::Memory
    }
}

impl<T: Drop> From<AllocFailed<T>> for ShowError {
    ghost use Rattle.std.specs.Prelude.{◌≡◌};
    ghost use Rattle.dp_show.specs.declared.errors.ShowError.TheVariants.{Memory as OutOfMemory};

    ghost from_gives = { λ _ e. e ≡ OutOfMemory };

    fn from(_: AllocFailed<T>) -> ShowError {
        ShowError::Memory
    }
}
