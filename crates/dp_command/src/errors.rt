//! Why a line was not read, or is no command.

ghost use Rattle.std.specs.Prelude.{◌≡◌};
ghost use Rattle.dp_command.specs.declared.errors.LineError.TheVariants.{Memory};
ghost use Rattle.dp_command.specs.Refusals.{code_of};

use dp_packet::ErrorCode;
use std::alloc::{AllocError, AllocFailed};
use thiserror::Error;

/// Why bytes were not read as a command line.
#[derive(Clone, Copy, Debug, Error, PartialEq, Eq)]
pub enum LineError {
    /// No command line is spelt so.
    #[error("no command line")]
    Parse,
    /// Out of memory.
    #[error("out of memory")]
    Memory,
}

impl From<AllocError> for LineError {
    ghost from_gives = { λ _ e. e ≡ Memory };

    fn from(_refused: AllocError) -> LineError {
        LineError::Memory
    }
}

impl<T: Drop> From<AllocFailed<T>> for LineError {
    ghost from_gives = { λ _ e. e ≡ Memory };

    fn from(_refused: AllocFailed<T>) -> LineError {
        LineError::Memory
    }
}

/// Why a line is no command, whatever the state of the session, in the order in which it is tested.
#[derive(Clone, Copy, Debug, PartialEq, Eq)]
pub enum Refusal {
    /// An option letter stands twice.
    Duplicate,
    /// No known command has this name.
    Unimplemented,
    /// There is no `-i`, or its value is not 1 to 64 bytes from 0x21 to 0x7e.
    NoId,
    /// An option or the payload is missing, malformed, or none of the command's.
    InvalidOptions,
}

impl Refusal {
    /// The code of the error response. DBGp 1.0, "Error Codes". Takes no memory.
    pub fn code(self) -> ErrorCode
        ensures { result ≡ code_of self }
    {
        match self {
            Refusal::Duplicate => ErrorCode::DuplicateArguments,
            Refusal::Unimplemented => ErrorCode::UnimplementedCommand,
            Refusal::NoId | Refusal::InvalidOptions => ErrorCode::InvalidOptions,
        }
    }
}

/// Why a line gave no typed command.
#[derive(Clone, Copy, Debug, Error, PartialEq, Eq)]
pub enum CommandError {
    /// The code of the error response.
    #[error("error {0:?}")]
    Code(ErrorCode),
    /// Out of memory.
    #[error("out of memory")]
    Memory,
}

impl From<AllocError> for CommandError {
    ghost use Rattle.dp_command.specs.declared.errors.CommandError.TheVariants as command_error;

    ghost from_gives = { λ _ e. e ≡ command_error.Memory };

    fn from(_refused: AllocError) -> CommandError {
        CommandError::Memory
    }
}
