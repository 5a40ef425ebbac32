//! What holds of every session of a proxy, in plain words.
ghost use Rattle.std.specs.Prelude.{◌≡◌, ◌++◌, ◌⊎◌, List, ℕ, false, length};
ghost use Rattle.dp_events.specs.declared.event.Act.{Act};
ghost use Rattle.dp_lanes.specs.declared.lane.Lane.{Lane};
ghost use Rattle.dp_lanes.specs.declared.lane.LaneKind.TheVariants.{Up, Down};
ghost use Rattle.dp_lanes.specs.Lanes.{is_bad};
ghost use Rattle.dp_lanes.specs.Passed.{HasPassed};
ghost use Rattle.dp_lanes.specs.Places.{BeginsNone, IsPart, kind_of, received_in};
ghost use Rattle.dp_proxy_laws.specs.PlainWords.{IsPlain, SendsPackets, given_on};
ghost use Rattle.dp_registry.specs.declared.pass.Pass.{Pass};
ghost use Rattle.dp_world.specs.Alone.{alone};
ghost use Rattle.dp_world.specs.Transcript.{received};

use dp_world::Engines;

/// Where no command among the bytes that are given passes its limit, and what the engine sends is whole packets, a
/// session has been given all that its IDE gives before its link closes, and as much was read of its engine as the
/// moves ask for of what was there; its IDE is handed the whole packets of that, and its engine the whole commands.
pub fn in_plain_words<A: Engines>(engines: &A)
    ensures { (key : List ℕ) (pass : Pass) (acts : List Act) → SendsPackets (A.known engines.now) key (given_on acts)
        → is_bad Down (given_on acts) ≡ false → IsPlain (A.known engines.now) key pass acts }
{}

/// A lane of packets between links: where what was read of the engine's link is a front of what the engine, served
/// alone with what was written to it, sends, what was written to the IDE's is at any end of the lane the whole packets
/// of just that; and where what the engine sends is whole packets, a refusal never comes.
pub fn running_lane_is_isolated<A: Engines>(engines: &A)
    ensures written { (key commands : List ℕ) (lane : Lane) (read rest written : List ℕ)
        → HasPassed Up lane read written
        → IsPart (kind_of lane) (received_in lane).held ⊎ BeginsNone (kind_of lane) (received_in lane).held
        → alone (A.known engines.now) key commands ≡ read ++ rest
        → written ≡ received (A.known engines.now) key commands (length read) }
    ensures good { (key commands read rest : List ℕ) → SendsPackets (A.known engines.now) key commands
        → alone (A.known engines.now) key commands ≡ read ++ rest → is_bad Up read ≡ false }
{}
