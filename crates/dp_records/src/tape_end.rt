//! How taping a session ends.

use dp_state::Outcome;

/// How a session ended whose record is whole.
#[derive(Clone, Copy, Debug, PartialEq, Eq)]
pub struct Ended {
    /// The status of the record's last line.
    pub status: u8,
    /// Where no command ended the session, and none begins the rest of what was read: the offset of that.
    pub bad: Option<u64>,
    /// How the program ended: not at all where it was killed.
    pub outcome: Option<Outcome>,
}

/// How taping a session ended.
#[derive(Clone, Copy, Debug, PartialEq, Eq)]
pub enum TapeEnd {
    /// The record is whole: a command ended the session, the source gave its end, or no command begins the rest.
    Ended(Ended),
    /// The source failed.
    ReadFault,
    /// The sink failed.
    WriteFault,
    /// The most bytes of a session were read: 4,294,967,295.
    ByteLimit,
    /// Out of memory.
    Memory,
}
