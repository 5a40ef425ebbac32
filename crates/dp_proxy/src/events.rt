//! The events of a proxy's core, and what they lead to.

use dp_bytes::Bytes;
use dp_registry::Refusal;

/// What happens on a link.
#[derive(Debug, Drop)]
pub enum Act {
    /// An IDE of this host connects, to register.
    Ide(Bytes),
    /// An engine connects, whose first packet has this key.
    Engine(Bytes),
    /// The IDE sends these bytes.
    Given(Bytes),
    /// These bytes were read of the engine.
    Moved(Bytes),
    /// The link closes.
    Closed,
}

/// What happens on one link of all.
#[derive(Debug, Drop)]
pub struct Event {
    pub link: u32,
    pub act: Act,
}

/// What an event leads to.
#[derive(Debug, Drop)]
pub enum Effect {
    Nothing,
    /// The IDE is sent this frame, and its link closes.
    Reply(Bytes),
    /// The engine has a session, whose IDE is reached here.
    Admitted {
        session: u64,
        host: Bytes,
        port: u16,
    },
    /// The engine is refused, and its link closes.
    Turned(Refusal),
    /// The engine is sent these whole commands.
    ToEngine(Bytes),
    /// The IDE is sent these whole packets.
    ToIde(Bytes),
}
