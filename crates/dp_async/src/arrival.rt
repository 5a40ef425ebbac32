//! What was heard.

use dp_bytes::Bytes;

/// What came at a moment of the program. No bytes are the end of the input, or its failure.
#[derive(Debug, Drop)]
pub struct Arrival {
    /// The number of the moment; once the program has ended, one more than that of its last one, or 1 where it had
    /// none.
    pub moment: u64,
    pub bytes: Bytes,
}
