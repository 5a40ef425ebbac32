//! Refusals of the core.

use std::alloc::AllocError;
use thiserror::Error;

/// Why a first packet gives no key.
#[derive(Clone, Copy, Debug, PartialEq, Eq, Error)]
pub enum InitError {
    /// It does not begin as an `init` whose `idekey` is a key.
    #[error("no key in the first packet")]
    BadInit,
    #[error("out of memory")]
    Memory,
}

impl From<AllocError> for InitError {
    ghost use Rattle.std.specs.Prelude.{◌≡◌};
    ghost use Rattle.dp_proxy.specs.declared.errors.InitError.TheVariants.{Memory as OutOfMemory};

    ghost from_gives = { λ _ e. e ≡ OutOfMemory };

    fn from(_: AllocError) -> InitError {
        InitError::Memory
    }
}

/// Why an event is answered with no `Effect`; each variant says what has changed.
#[derive(Clone, Copy, Debug, PartialEq, Eq, Error)]
pub enum ProxyError {
    /// An engine came without a key. Nothing has changed.
    #[error("an engine without a key")]
    BadInit,
    /// No frame begins what is left of a stream of the link, of the commands or, where these are sound, of the packets.
    /// The offset counts from the first byte of that stream to the first with which no frame goes on, or where a length
    /// passes the limit, to its frame. The link is closed.
    #[error("bad frame at offset {offset}")]
    BadFrame { offset: u64 },
    /// Out of memory. The proxy has failed for good: it answers so from then on.
    #[error("out of memory")]
    Memory,
}

impl From<AllocError> for ProxyError {
    ghost use Rattle.std.specs.Prelude.{◌≡◌};
    ghost use Rattle.dp_proxy.specs.declared.errors.ProxyError.TheVariants.{Memory as OutOfMemory};

    ghost from_gives = { λ _ e. e ≡ OutOfMemory };

    fn from(_: AllocError) -> ProxyError {
        ProxyError::Memory
    }
}
