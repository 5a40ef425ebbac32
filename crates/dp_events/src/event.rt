//! The events of a list.

use dp_bytes::Bytes;

/// What happens on a link.
#[derive(Debug, Drop)]
pub enum Act {
    /// An IDE of this host connects, to register.
    Ide(Bytes),
    /// An engine connects with this key.
    Engine(Bytes),
    /// The IDE sends these bytes.
    Give(Bytes),
    /// At most so many more bytes are read of the engine.
    Move(u32),
    /// The link closes.
    Close,
}

/// What happens on one link of all.
#[derive(Debug, Drop)]
pub struct Event {
    pub link: u32,
    pub act: Act,
}
