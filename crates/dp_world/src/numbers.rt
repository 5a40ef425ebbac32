//! The numbers of a replay.
ghost use Rattle.std.specs.Prelude.{◌≡◌};
ghost use Rattle.dp_world.specs.Tallies as spec;

/// The numbers of a list of events. Each stays at 2^64 - 1.
#[derive(Clone, Copy, Debug, PartialEq, Eq)]
pub struct Tally {
    /// The engines that connected.
    pub sessions: u64,
    /// Those of them that were refused.
    pub refused: u64,
    /// The whole packets that IDEs received.
    pub packets: u64,
    /// The whole commands that engines received.
    pub commands: u64,
    /// The bytes of the programs' own outputs.
    pub output: u64,
}

/// Before any link.
pub(crate) const NOTHING: Tally = Tally {
    sessions: 0,
    refused: 0,
    packets: 0,
    commands: 0,
    output: 0,
};

/// The numbers of both.
pub(crate) fn both(one: &Tally, other: &Tally) -> Tally
    ensures { result ≡ spec.in_words (spec.plus one.now other.now) }
{
    Tally {
        sessions: one.sessions.saturating_add(other.sessions),
        refused: one.refused.saturating_add(other.refused),
        packets: one.packets.saturating_add(other.packets),
        commands: one.commands.saturating_add(other.commands),
        output: one.output.saturating_add(other.output),
    }
}
