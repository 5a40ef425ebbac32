//! What files are fetched from.
ghost use Rattle.std.specs.Prelude.{◌≡◌, ℕ, ◌+◌, ◌≤◌, List, [], ◌∷◌, length, IfOk, IsErrOf};
ghost use Rattle.std.specs.declared.option.Option.{Option};
ghost use Rattle.dp_outside.specs.Causes.{Rose};
ghost use Rattle.dp_outside.specs.Files.{Fetches, Lacks};
ghost use Rattle.dp_outside.specs.Reports.{grown};

use crate::Bytes1;
use std::alloc::{AllocError, AllocFailed, Global};
use thiserror::Error;

/// Why a file was not fetched.
#[derive(Clone, Copy, Debug, PartialEq, Eq, Error)]
pub enum ShelfError {
    #[error("the shelf failed")]
    Failed,
    #[error("no file of this name")]
    Missing,
    #[error("out of memory")]
    Memory,
}

impl From<AllocError> for ShelfError {
    ghost use Rattle.std.specs.Prelude.{◌≡◌};
    ghost use Rattle.dp_outside.specs.declared.shelves.ShelfError.TheVariants.{Memory};

    ghost from_gives = { λ _ e. e ≡ Memory };

    fn from(_: AllocError) -> Self {
        ShelfError::Memory
    }
}

impl<T: Drop> From<AllocFailed<T>> for ShelfError {
    ghost use Rattle.std.specs.Prelude.{◌≡◌};
    ghost use Rattle.dp_outside.specs.declared.shelves.ShelfError.TheVariants.{Memory};

    ghost from_gives = { λ _ e. e ≡ Memory };

    fn from(_: AllocFailed<T>) -> Self {
        ShelfError::Memory
    }
}

/// What files are fetched from, by name.
pub trait Shelf {
    /// The names and contents of its files, where it tells them. Of two of one name the first counts.
    ghost files: { Self → Option (List (List ℕ × List ℕ)) };

    /// The names that it was asked for so far, in order, where it tells them.
    ghost fetched: { Self → Option (List (List ℕ)) };

    /// How often it has failed.
    ghost faults: { Self → ℕ };

    /// The first `limit + 1` bytes of the file of that name, or the whole file where it is shorter.
    ///
    /// So a file that is longer than `limit` bytes is told from one that is not. `Missing` comes where the
    /// shelf holds no file of that name, and `Failed` where the shelf could not be read.
    fn fetch(&mut self, alloc: Global, name: &str, limit: usize) -> Result<Bytes1, ShelfError>
        ensures length { IfOk result (λ bytes. length bytes ≤ limit + 1) }
        ensures bytes { IfOk result (Fetches (files self.old) name.now limit) }
        ensures missing { IsErrOf result ShelfError.Missing → Lacks (files self.old) name.now }
        ensures failed { IsErrOf result ShelfError.Failed → Rose (faults self.old) (faults self.new) }
        ensures later { faults self.old ≤ faults self.new }
        ensures files { files self.new ≡ files self.old }
        ensures fetched { fetched self.new ≡ grown (fetched self.old) (name.now ∷ []) };
}
