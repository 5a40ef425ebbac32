//! Why bytes are no list of events.

use std::alloc::AllocError;
use thiserror::Error;

/// Why bytes are no list of events.
#[derive(Clone, Copy, Debug, PartialEq, Eq, Error)]
pub enum ListError {
    /// This line, counted from 1, adds no event that may follow those before it.
    #[error("bad script line {line}")]
    BadLine { line: usize },
    #[error("out of memory")]
    Memory,
}

impl From<AllocError> for ListError {
    ghost use Rattle.std.specs.Prelude.{◌≡◌};
    ghost use Rattle.dp_events.specs.declared.errors.ListError.TheVariants.{Memory as OutOfMemory};

    ghost from_gives = { λ _ e. e ≡ OutOfMemory };

    fn from(_: AllocError) -> ListError {
        ListError::Memory
    }
}
