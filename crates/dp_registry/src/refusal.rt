//! Why a call of the registry is refused.

ghost use Rattle.std.specs.Prelude.{◌≡◌};
ghost use Rattle.dp_registry.specs.declared.refusal.Refusal.TheVariants.{Memory as NoMemory};

use dp_bytes::Bytes;
use std::alloc::{AllocError, AllocFailed};
use thiserror::Error;

/// Why a call was refused.
#[derive(Debug, Drop, Error)]
pub enum Refusal {
    /// The key is held by another host or another port: this one.
    #[error("key is held")]
    Taken { host: Bytes, port: u16 },
    /// Nobody holds the key.
    #[error("unknown key")]
    Unknown,
    /// Another host holds the key.
    #[error("key of another host")]
    NotYours,
    /// The registration takes one session at a time, and this one is live under the key.
    #[error("key is busy")]
    Busy { session: u64 },
    /// There is no room: the journal has so many entries, and so many sessions are live.
    #[error("registry is full")]
    Full { events: u64, live: u64 },
    /// Out of memory.
    #[error("out of memory")]
    Memory,
}

impl From<AllocError> for Refusal {
    ghost from_gives = { λ _ e. e ≡ NoMemory };

    fn from(_error: AllocError) -> Refusal {
        Refusal::Memory
    }
}

impl<T: Drop> From<AllocFailed<T>> for Refusal {
    ghost from_gives = { λ _ e. e ≡ NoMemory };

    fn from(_error: AllocFailed<T>) -> Refusal {
        Refusal::Memory
    }
}
