//! The transcript, written on a sink.
ghost use Rattle.std.specs.Prelude.{◌≡◌, ◌≤◌, ◌++◌, OnOk};
ghost use Rattle.dp_outside.specs.Changes.{change};
ghost use Rattle.dp_proxy.specs.Pasts.{Link, Past};
ghost use Rattle.dp_world.specs.Headline.{EachReceives};
ghost use Rattle.dp_world.specs.Replays.{Replays};
ghost use Rattle.dp_world.specs.Transcript as spec;
ghost use Rattle.dp_world.specs.inner.KeptLinks.{AreShown, Has, IsShown};
ghost use Rattle.dp_world.specs.inner.LinkLines.{Writes, lines_of};

use crate::engine::{Engine, finish};
use crate::engines::Engines;
use crate::errors::ReplayError;
use crate::lines::{admission, refusal, registration, service};
use crate::shown::Shown;
use crate::world::follow;
use dp_bytes::Memory;
use dp_events::Events;
use dp_outside::Sink;
use indexmap::IndexMap;
use std::alloc::Global;

/// Puts the lines of a session, whose program runs on to its end.
fn session<A: Engines>(
    text: &mut Vec<u8>,
    alloc: Global,
    engines: &A,
    link: u32,
    key: &[u8],
    host: &[u8],
    port: u16,
    engine: Engine<A::Session, A::End>,
    steps: &mut A::Steps,
) -> Result<(), Memory>
    ensures { (of : Link) → Has (A.known engines.now) of key.now host.now port engine
        → OnOk result (text.new.items ≡ text.old.items ++ spec.shown (A.known engines.now) link of) }
{
    let end = finish(engine, alloc, engines, steps)?;
    admission(text, link, key, host, port)?;
    service(text, &end)
}

/// Puts the lines of one link.
fn put_lines<A: Engines>(
    text: &mut Vec<u8>,
    alloc: Global,
    engines: &A,
    link: u32,
    shown: Shown<A::Session, A::End>,
    steps: &mut A::Steps,
) -> Result<(), Memory>
    ensures { (of : Link) → IsShown (A.known engines.now) of shown
        → OnOk result (text.new.items ≡ text.old.items ++ spec.shown (A.known engines.now) link of) }
{
    match shown {
        Shown::Registration { host, reply } => {
            registration(text, link, host.as_slice(), reply.as_slice())
        }
        Shown::Refused { key, why } => refusal(text, link, key.as_slice(), &why),
        Shown::Session {
            key,
            host,
            port,
            engine,
        } => session(
            text,
            alloc,
            engines,
            link,
            key.as_slice(),
            host.as_slice(),
            port,
            engine,
            steps,
        ),
    }
}

/// Writes the lines of one link.
fn write_one<K: Sink, A: Engines>(
    alloc: Global,
    engines: &A,
    link: u32,
    shown: Shown<A::Session, A::End>,
    out: &mut K,
    steps: &mut A::Steps,
) -> Result<(), ReplayError>
    ensures writes { (of : Link) → IsShown (A.known engines.now) of shown
        → Writes result (spec.shown (A.known engines.now) link of) (change K.taken K.faults out.old out.new) }
    ensures later { K.faults out.old ≤ K.faults out.new }
{
    let mut text = Vec::new(alloc);
    put_lines(&mut text, alloc, engines, link, shown, steps)?;
    match out.put(text.as_slice()) {
        Ok(()) => Ok(()),
        Err(_) => Err(ReplayError::OutFault),
    }
}

/// Writes the lines of these links, in their order.
fn write_all<K: Sink, A: Engines>(
    alloc: Global,
    engines: &A,
    links: IndexMap<u32, Shown<A::Session, A::End>>,
    out: &mut K,
    steps: &mut A::Steps,
) -> Result<(), ReplayError>
    ensures writes { (past : Past) → AreShown (A.known engines.now) past links.entries
        → Writes result (lines_of (A.known engines.now) past links.entries) (change K.taken K.faults out.old out.new) }
    ensures later { K.faults out.old ≤ K.faults out.new }
{
    let mut left = links.into_iter();
    'links: while let Some((link, shown)) = left.next() {
        write_one(alloc, engines, link, shown, out, steps)?;
    }
    Ok(())
}

/// Replays a list of events with these engines, each in memory, and writes its transcript.
///
/// For every list each IDE receives exactly the whole packets that its engine, served alone with that IDE's commands,
/// would send for the session its key gave it, and nothing of another's: of that the transcript has the lines.
///
/// Nothing is written before the last event was handled; where the sink
/// fails or memory runs out it has taken a front of the transcript.
pub fn replay<K: Sink, A: Engines>(
    alloc: Global,
    events: &Events,
    engines: &A,
    out: &mut K,
    steps: &mut A::Steps,
) -> Result<(), ReplayError>
    ensures replays { Replays result (A.known engines.now) events.now (change K.taken K.faults out.old out.new) }
    ensures headline { EachReceives (A.known engines.now) events.now }
    ensures later { K.faults out.old ≤ K.faults out.new }
{
    let links = follow(alloc, engines, events.events(), steps)?;
    write_all(alloc, engines, links, out, steps)
}
