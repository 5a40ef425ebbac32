//! The links, the dialer and the spawner in memory over which a session is served.

ghost use Rattle.std.specs.Prelude.{◌≡◌, [], IfOk};

use crate::calls::{Faulty, Place};
use dp_memory_links::{DialPart, ListDialer};
use dp_outside::{ByteSink, ByteSource, TurnSpawner};
use dp_rows::Memory;
use std::alloc::Global;

/// How many bytes a link takes.
const ROOM: usize = 4096;

/// What an engine and its IDE send, the size of the pieces in which it comes, and which call fails.
#[derive(Clone, Copy)]
pub(crate) struct Plan<'a> {
    pub(crate) engine: &'a [u8],
    pub(crate) ide: &'a [u8],
    pub(crate) piece: usize,
    pub(crate) faulty: Faulty,
}

/// The link of an engine, what dials its IDE, and what starts a lane.
#[derive(Drop)]
pub(crate) struct Objects<R> {
    pub(crate) source: ByteSource,
    pub(crate) sink: ByteSink,
    pub(crate) dialer: ListDialer,
    pub(crate) spawner: TurnSpawner<R>,
}

/// A source of these bytes, in pieces of this size, of whose takes those of an object fail.
fn source(alloc: Global, bytes: &[u8], plan: &Plan<'_>, place: Place) -> Result<ByteSource, Memory>
    ensures unread { IfOk result (λ source. source.tape.given ≡ []) }
    ensures fresh { IfOk result (λ source. source.plan.faults ≡ 0) }
{
    let fails = plan.faulty.calls(alloc, place)?;
    let cuts = vec![in alloc; plan.piece; bytes.len()]?;
    ByteSource::new(bytes.to_vec(alloc)?, cuts, fails)
}

/// A sink of whose puts those of an object fail.
fn sink(alloc: Global, plan: &Plan<'_>, place: Place) -> Result<ByteSink, Memory>
    ensures fresh { IfOk result (λ sink. sink.plan.faults ≡ 0) }
{
    ByteSink::new(alloc, ROOM, plan.faulty.calls(alloc, place)?)
}

/// A dialer of one link, to the IDE.
fn dialer(alloc: Global, plan: &Plan<'_>) -> Result<ListDialer, Memory> {
    let mut links = Vec::new(alloc);
    let source = source(alloc, plan.ide, plan, Place::IdeTakes)?;
    links.push((source, sink(alloc, plan, Place::IdePuts)?))?;
    let fails = plan.faulty.calls(alloc, Place::Dials)?;
    let mut parts = Vec::new(alloc);
    parts.push(DialPart { links, fails })?;
    ListDialer::new(alloc, parts)
}

/// The objects of a plan.
pub(crate) fn objects_of<R>(alloc: Global, plan: &Plan<'_>) -> Result<Objects<R>, Memory> {
    let starts = plan.faulty.calls(alloc, Place::Starts)?;
    Ok(Objects {
        source: source(alloc, plan.engine, plan, Place::EngineTakes)?,
        sink: sink(alloc, plan, Place::EnginePuts)?,
        dialer: dialer(alloc, plan)?,
        spawner: TurnSpawner::new(alloc, starts)?,
    })
}
