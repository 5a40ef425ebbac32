//! What an engine is given when it is admitted.

use dp_bytes::Bytes;

/// A session, and where its IDE is reached.
#[derive(Debug, Drop)]
pub struct Pass {
    pub session: u64,
    pub host: Bytes,
    pub port: u16,
}
