//! The bytes of names and texts among tokens.

ghost use Rattle.std.specs.Prelude.{◌≡◌, IfOk};

use std::alloc::{AllocError, Global};
use std::marker::Model;

/// The bytes of a name or of a text. Contracts see the list of its bytes.
#[derive(Debug, Drop)]
pub struct Spelling {
    bytes: Vec<u8>,
}

impl Model for Spelling {
    ghost use Rattle.std.specs.Prelude.{List, ℕ};

    ghost Value = { List ℕ };

    ghost view = { λ s. s.bytes.items };
}

impl Spelling {
    /// The spelling that a vector holds. Takes no memory.
    pub fn of(bytes: Vec<u8>) -> Self
        ensures { result ≡ bytes.items }
    {
        Spelling { bytes }
    }

    /// A copy of these bytes.
    pub fn from_slice(alloc: Global, bytes: &[u8]) -> Result<Self, AllocError>
        ensures { IfOk result (λ copy. copy ≡ bytes.now) }
    {
        Ok(Spelling::of(Vec::from_slice(alloc, bytes)?))
    }

    /// The bytes as a slice. Takes no memory.
    pub fn as_slice(&self) -> &[u8]
        ensures { result.now ≡ self.now }
    {
        self.bytes.as_slice()
    }

    /// The vector of the bytes. Takes no memory.
    pub fn into_vec(self) -> Vec<u8>
        ensures { result.items ≡ self }
    {
        self.bytes
    }
}
