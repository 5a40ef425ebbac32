//! Why held bytes begin no frame.

ghost use Rattle.std.specs.Prelude.{◌≡◌};
ghost use Rattle.dp_wire.specs.Places.{refused_at};

use thiserror::Error;

/// Why held bytes begin no frame. Offsets count from the first byte of the stream.
#[derive(Clone, Copy, Debug, PartialEq, Eq, Error)]
pub enum WireError {
    /// A byte that no length of a packet has at its place.
    #[error("bad length at offset {offset}")]
    BadLength { offset: u64 },
    /// A byte in the place of the NUL behind a packet's text.
    #[error("no NUL at offset {offset}")]
    NoNul { offset: u64 },
    /// A length that passes the limit: the number that the digits are up to the one with which a packet's passes it, or
    /// 1,048,577 for a command.
    #[error("too long: {length}")]
    TooLong { length: u64 },
}

impl WireError {
    /// The place in the stream where no packet begins. What is held begins at this offset, and so does
    /// a frame whose length passes the limit.
    pub fn place(self, start: u64) -> u64
        ensures { result ≡ refused_at self start }
    {
        match self {
            WireError::BadLength { offset } => offset,
            WireError::NoNul { offset } => offset,
            WireError::TooLong { length: _ } => start,
        }
    }
}
