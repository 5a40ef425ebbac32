//! The entries of a journal.

use dp_bytes::Bytes;

/// A call with its reply.
#[derive(Debug, Drop)]
pub enum Entry {
    /// An IDE registers a key: it is reached at the host and the port, by one session at a time or by
    /// several. The reply is 0 where it was accepted, 1 where the key is taken.
    Register {
        host: Bytes,
        port: u16,
        key: Bytes,
        multiple: bool,
        reply: u8,
    },
    /// A host stops a registration. The reply is 0 where it was accepted, 2 where nobody holds the key,
    /// 3 where another host does.
    Stop {
        host: Bytes,
        key: Bytes,
        reply: u8,
    },
    /// An engine asks for a session under a key.
    Admit {
        key: Bytes,
        reply: AdmitReply,
    },
    /// A session ends.
    Dismiss {
        session: u64,
    },
}

/// What an engine that asks for a session is answered.
#[derive(Debug, Drop)]
pub enum AdmitReply {
    /// The session, and where its IDE is reached.
    Given {
        session: u64,
        host: Bytes,
        port: u16,
    },
    /// Nobody holds the key.
    Unknown,
    /// The registration takes one session at a time, and this one is live under the key.
    Busy(u64),
}
