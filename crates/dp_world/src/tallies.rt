//! The numbers of a replay, counted link by link.
ghost use Rattle.std.specs.Prelude.{◌≡◌, ℕ, List, IfOk};
ghost use Rattle.dp_proxy.specs.Pasts.{Link, Past};
ghost use Rattle.dp_world.specs.Tallies as spec;
ghost use Rattle.dp_world.specs.inner.KeptLinks.{AreShown, Has, IsShown};
ghost use Rattle.dp_world.specs.inner.LinkTallies.{tallies_of};

use crate::engine::{Engine, finish};
use crate::engines::Engines;
use crate::numbers::{NOTHING, Tally, both};
use crate::shown::Shown;
use crate::world::follow;
use dp_bytes::Memory;
use dp_events::Events;
use dp_lanes::{LaneKind, count_frames};
use indexmap::IndexMap;
use std::alloc::Global;

/// The numbers of a session, whose program runs on to its end.
fn served<A: Engines>(
    alloc: Global,
    engines: &A,
    engine: Engine<A::Session, A::End>,
    steps: &mut A::Steps,
) -> Result<Tally, Memory>
    ensures { (of : Link) (key host : List ℕ) (port : ℕ)
        → Has (A.known engines.now) of key host port engine
        → IfOk result (λ tally. tally ≡ spec.tally_on (A.known engines.now) of) }
{
    let end = finish(engine, alloc, engines, steps)?;
    let packets = count_frames(alloc, LaneKind::Up, end.received.as_slice())?;
    let commands = count_frames(alloc, LaneKind::Down, end.given.as_slice())?;
    Ok(Tally {
        sessions: 1,
        refused: 0,
        packets,
        commands,
        output: end.own.len() as u64,
    })
}

/// The numbers of one link.
fn of_link<A: Engines>(
    alloc: Global,
    engines: &A,
    shown: Shown<A::Session, A::End>,
    steps: &mut A::Steps,
) -> Result<Tally, Memory>
    ensures { (of : Link) → IsShown (A.known engines.now) of shown
        → IfOk result (λ tally. tally ≡ spec.tally_on (A.known engines.now) of) }
{
    match shown {
        Shown::Registration { host: _, reply: _ } => Ok(NOTHING),
        Shown::Refused { key: _, why: _ } => Ok(Tally {
            sessions: 1,
            refused: 1,
            packets: 0,
            commands: 0,
            output: 0,
        }),
        Shown::Session {
            key: _,
            host: _,
            port: _,
            engine,
        } => served(alloc, engines, engine, steps),
    }
}

/// The numbers of these links.
fn of_links<A: Engines>(
    alloc: Global,
    engines: &A,
    links: IndexMap<u32, Shown<A::Session, A::End>>,
    steps: &mut A::Steps,
) -> Result<Tally, Memory>
    ensures { (past : Past) → AreShown (A.known engines.now) past links.entries
        → IfOk result (λ tally. tally ≡ spec.in_words (tallies_of (A.known engines.now) past links.entries)) }
{
    let mut left = links.into_iter();
    let mut tally = NOTHING;
    'links: while let Some((_link, shown)) = left.next() {
        let one = of_link(alloc, engines, shown, steps)?;
        tally = both(&tally, &one);
    }
    Ok(tally)
}

/// The numbers of what a replay of these events with these engines comes to.
pub fn tally<A: Engines>(
    alloc: Global,
    events: &Events,
    engines: &A,
    steps: &mut A::Steps,
) -> Result<Tally, Memory>
    ensures { IfOk result (λ tally. tally ≡ spec.in_words (spec.tally_of (A.known engines.now) events.now)) }
{
    let links = follow(alloc, engines, events.events(), steps)?;
    of_links(alloc, engines, links, steps)
}
