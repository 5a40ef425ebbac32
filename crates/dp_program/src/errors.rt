//! Why there is no program, and why its run failed.

ghost use Rattle.std.specs.Prelude.{◌≡◌};

use dp_bundle::BundleError;
use dp_parse::ParseError;
use dp_state::FatalKind;
use thiserror::Error;

/// Why the files of a shelf make no program. A file is named by its number, from 0.
#[derive(Debug, Drop, Error)]
pub enum ProgramError {
    /// The shelf failed at the file.
    #[error("the shelf failed at file {file}")]
    Shelf { file: u32 },
    /// The shelf has no file of its name.
    #[error("no file {file}")]
    Missing { file: u32 },
    /// The file is longer than a file may be.
    #[error("file {file} is too long")]
    TooLong { file: u32 },
    /// The file is not in the grammar.
    #[error("file {file}: {error}")]
    Source { file: u32, error: ParseError },
    /// Out of memory.
    #[error("out of memory")]
    Memory,
}

impl From<BundleError> for ProgramError {
    ghost use Rattle.dp_program.specs.Programs.{refusal};

    ghost from_gives = { λ why e. e ≡ refusal why };

    fn from(why: BundleError) -> Self {
        match why {
            BundleError::Source { file, error } => ProgramError::Source { file, error },
            BundleError::TooLong { file } => ProgramError::TooLong { file },
            BundleError::Memory => ProgramError::Memory,
        }
    }
}

/// Why the run of a program failed.
#[derive(Debug, Drop, Error)]
pub enum RunError {
    /// There is no program.
    #[error("{0}")]
    Program(ProgramError),
    /// The program could not go on, on this line of the file.
    #[error("the program could not go on in file {file} on line {line}")]
    Fatal {
        kind: FatalKind,
        file: u32,
        line: u32,
    },
    /// The program would have had more moments than it may have.
    #[error("the bound was reached")]
    Bound,
    /// The output failed.
    #[error("the output failed")]
    OutFault,
    /// Out of memory.
    #[error("out of memory")]
    Memory,
}
