//! How sessions are counted that make no entry.
ghost use Rattle.std.specs.Prelude.{◌≡◌, ◌+◌, ◌<◌};
ghost use Rattle.dp_wire.specs.Received.{last_place};
ghost use Rattle.dp_crews.specs.Tallies.{counted, tally, tallied};

use dp_registry::Refusal;
use dp_relay::RelayEnd;

/// How many sessions ended without an entry: for want of room in the registry, for want of a key, by a fault of the
/// engine's link, and out of memory.
#[derive(Clone, Copy, Debug, PartialEq, Eq)]
pub struct Tally {
    pub full: u64,
    pub unfit: u64,
    pub failed: u64,
    pub starved: u64,
}

impl Tally {
    /// The tally before any session.
    pub(crate) fn new() -> Self
        ensures { result ≡ tally 0 0 0 0 }
    {
        Tally {
            full: 0,
            unfit: 0,
            failed: 0,
            starved: 0,
        }
    }

    /// Counts a session that ended so.
    pub(crate) fn note(&mut self, end: &RelayEnd)
        requires room { counted self.old < last_place }
        ensures { self.new ≡ tallied self.old end.now }
    {
        match end {
            RelayEnd::NoSession(Refusal::Full { events: _, live: _ }) => self.full += 1,
            RelayEnd::BadInit => self.unfit += 1,
            RelayEnd::BadFrame { offset: _ } => self.unfit += 1,
            RelayEnd::ReadFault => self.failed += 1,
            RelayEnd::Memory => self.starved += 1,
            RelayEnd::NoSession(Refusal::Taken { host: _, port: _ }) => {}
            RelayEnd::NoSession(Refusal::Unknown) => {}
            RelayEnd::NoSession(Refusal::NotYours) => {}
            RelayEnd::NoSession(Refusal::Busy { session: _ }) => {}
            RelayEnd::NoSession(Refusal::Memory) => {}
            RelayEnd::Joined {
                session: _,
                up: _,
                down: _,
            } => {}
            RelayEnd::DialFault => {}
            RelayEnd::NoThread => {}
        }
    }
}
