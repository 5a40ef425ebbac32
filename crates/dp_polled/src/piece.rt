//! What goes through a post.

use dp_bytes::Bytes;

/// What a reader hands over: bytes, or how its input is over.
#[derive(Debug, Drop)]
pub enum Piece {
    /// These bytes came.
    Bytes(Bytes),
    /// The input has come to its end.
    End,
    /// The input has failed.
    Failed,
}
