//! Why a script was not read, or not played to its end.

use dp_bytes::Bytes;
use std::alloc::{AllocError, AllocFailed};
use thiserror::Error;

/// Why a script was not read, or not played to its end.
#[derive(Debug, Drop, Error)]
pub enum IdeError {
    /// The first line that is no line of a script; they count from 1.
    #[error("bad script line {line}")]
    BadScript {
        line: u64,
    },
    /// The instruction on this line found something else than it wanted, or nothing.
    #[error("line {line} differs")]
    Differs {
        line: u64,
        wanted: Bytes,
        found: Option<Bytes>,
    },
    /// The engine's link ended before a packet that was awaited.
    #[error("the peer ended")]
    PeerEnd,
    /// Where a packet was awaited none stands. The offset counts from the first byte read: to the first byte with which
    /// no frame goes on, to a frame whose length passes the limit, or to a frame whose text is no packet; the first is
    /// an init.
    #[error("bad packet at offset {offset}")]
    BadPacket {
        offset: u64,
    },
    #[error("the link failed where it was read")]
    ReadFault,
    #[error("the link failed where it was written")]
    WriteFault,
    #[error("the output failed")]
    OutFault,
    #[error("out of memory")]
    Memory,
}

impl From<AllocError> for IdeError {
    ghost use Rattle.std.specs.Prelude.{◌≡◌};
    ghost use Rattle.dp_ide.specs.declared.errors.IdeError.TheVariants.{Memory as OutOfMemory};

    ghost from_gives = { λ _ e. e ≡ OutOfMemory };

    fn from(_: AllocError) -> IdeError {
        IdeError::Memory
    }
}

impl<T: Drop> From<AllocFailed<T>> for IdeError {
    ghost use Rattle.std.specs.Prelude.{◌≡◌};
    ghost use Rattle.dp_ide.specs.declared.errors.IdeError.TheVariants.{Memory as OutOfMemory};

    ghost from_gives = { λ _ e. e ≡ OutOfMemory };

    fn from(_: AllocFailed<T>) -> IdeError {
        IdeError::Memory
    }
}
