//! What a line of a record tells.

use dp_bytes::Bytes;

/// Whose bytes they are.
#[derive(Clone, Copy, Debug, PartialEq, Eq)]
pub enum Stream {
    /// The session was sent them.
    In,
    /// It sent them.
    Out,
    /// They went to its program's own output.
    Own,
}

/// What a line of a record tells, unless it is the last one.
#[derive(Debug, Drop)]
pub struct Entry {
    pub stream: Stream,
    pub bytes: Bytes,
}
