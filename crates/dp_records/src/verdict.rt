//! What is answered of a record.

use std::alloc::{AllocError, AllocFailed};
use thiserror::Error;

/// What is said of a record.
#[derive(Clone, Copy, Debug, PartialEq, Eq)]
pub enum Verdict {
    /// Its session does what it tells.
    Honest,
    /// The line of this number, counted from 1, is the first that tells otherwise.
    Differs { line: u64 },
}

/// Why nothing is said of a record.
#[derive(Clone, Copy, Debug, PartialEq, Eq, Error)]
pub enum AuditError {
    /// The line of this number, counted from 1, is the first that no record has there.
    #[error("bad script line {line}")]
    BadRecord { line: u64 },
    #[error("the record could not be read")]
    ReadFault,
    #[error("out of memory")]
    Memory,
}

impl From<AllocError> for AuditError {
    ghost use Rattle.std.specs.Prelude.{◌≡◌};
    ghost use Rattle.dp_records.specs.declared.verdict.AuditError.TheVariants.{Memory as OutOfMemory};

    ghost from_gives = { λ _ e. e ≡ OutOfMemory };

    fn from(_: AllocError) -> AuditError {
        AuditError::Memory
    }
}

impl<T: Drop> From<AllocFailed<T>> for AuditError {
    ghost use Rattle.std.specs.Prelude.{◌≡◌};
    ghost use Rattle.dp_records.specs.declared.verdict.AuditError.TheVariants.{Memory as OutOfMemory};

    ghost from_gives = { λ _ e. e ≡ OutOfMemory };

    fn from(_: AllocFailed<T>) -> AuditError {
        AuditError::Memory
    }
}
