//! How lanes and sessions end.
use dp_registry::Refusal;

/// Why a lane ended.
#[derive(Clone, Copy, Debug, PartialEq, Eq)]
pub enum LaneEnd {
    /// Its source came to its end.
    End,
    /// Its source failed.
    ReadFault,
    /// Its sink failed.
    WriteFault,
    /// Here in its stream no frame begins, however it goes on.
    BadFrame { offset: u64 },
    /// Out of memory.
    Memory,
}

/// How the service of an engine ended.
#[derive(Debug, Drop)]
pub enum RelayEnd {
    /// It was joined to its IDE: the number of the session, and how its lanes ended.
    Joined {
        session: u64,
        up: LaneEnd,
        down: LaneEnd,
    },
    /// Its first packet names no key, or it ended before one.
    BadInit,
    /// It was given no session.
    NoSession(Refusal),
    /// Its IDE was not reached.
    DialFault,
    /// No thread was started for its lanes.
    NoThread,
    /// Its source failed before its first packet.
    ReadFault,
    /// Its first packet is none: here in its stream no packet begins.
    BadFrame {
        offset: u64,
    },
    /// Out of memory, before it was given a session.
    Memory,
}
