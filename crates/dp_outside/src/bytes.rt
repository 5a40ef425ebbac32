//! A byte string.
ghost use Rattle.std.specs.Prelude.{◌≡◌};

use std::marker::Model;

/// A byte string of this crate's own. Contracts see the list of its bytes.
#[derive(Debug, Drop)]
pub struct Bytes1 {
    bytes: Vec<u8>,
}

impl Model for Bytes1 {
    ghost use Rattle.std.specs.Prelude.{List, ℕ};

    ghost Value = { List ℕ };

    ghost view = { λ b. b.bytes.items };
}

impl Bytes1 {
    /// The byte string that a vector holds. Takes no memory.
    pub fn of(bytes: Vec<u8>) -> Self
        ensures { result ≡ bytes.items }
    {
        Bytes1 { bytes }
    }

    /// The bytes as a slice. Takes no memory.
    pub fn as_slice(&self) -> &[u8]
        ensures { result.now ≡ self.now }
    {
        self.bytes.as_slice()
    }

    /// The vector of the bytes. Takes no memory.
    pub fn into_vec(self) -> Vec<u8>
        ensures { result.items ≡ self }
    {
        self.bytes
    }
}
