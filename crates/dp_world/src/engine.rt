//! An engine in memory, with its session.
ghost use Rattle.std.specs.Prelude.{◌≡◌, ◌≤◌, ◌+◌, [], ◌++◌, ℕ, List, flat_map, length, take, drop};
ghost use Rattle.std.specs.Prelude.{IfOk, OnOk, OnErr};
ghost use Rattle.std.specs.List.{AllByRecursion};
ghost use Rattle.dp_outside.specs.Names.{IsKey};
ghost use Rattle.dp_wire.specs.Frames.{IsPacketText, commands_in, packet_frame, rest_of};
ghost use Rattle.dp_world.specs.inner.EngineStates.{Serves};

use crate::engines::Engines;
use crate::lent::lend;
use dp_bytes::{Bytes, Memory};
use dp_conversation::{Answer, append_packets};
use dp_state::Outcome;
use dp_wire::packet_bytes;
use std::alloc::Global;

/// An engine in memory. What it has sent is kept whole: what its IDE received is a front of it.
#[derive(Drop)]
pub(crate) struct Engine<S, E> {
    session: S,
    /// How a command has ended the session, if one has.
    ended: Option<E>,
    /// What it has sent, how much of that was read, and how much of that the IDE received.
    sent: Vec<u8>,
    read: usize,
    received: usize,
    /// The whole commands that it was given.
    given: Vec<u8>,
    /// What the program has written to its own output.
    own: Vec<u8>,
}

/// What is shown of an engine whose session is over.
#[derive(Drop)]
pub(crate) struct Ended {
    /// What its IDE received.
    pub(crate) received: Vec<u8>,
    /// The whole commands that it was given.
    pub(crate) given: Vec<u8>,
    /// What the program has written to its own output.
    pub(crate) own: Vec<u8>,
    /// How the program ended: not at all where it was killed.
    pub(crate) outcome: Option<Outcome>,
}

impl<S, E> Engine<S, E> {
    /// Reads at most so many bytes more of what it has sent. Where memory runs out none was read.
    pub(crate) fn next(&mut self, alloc: Global, most: u32) -> Result<Bytes, Memory>
        requires { self.old.read ≤ length self.old.sent.items }
        ensures piece { IfOk result (λ piece. piece ≡ take most (drop self.old.read self.old.sent.items)) }
        ensures read { IfOk result (λ piece. self.new ≡ record self.old { read = self.old.read + length piece }) }
        ensures err { OnErr result (self.new ≡ self.old) }
    {
        let left = self.sent.len() - self.read;
        let end = self.read + left.min(most as usize);
        let piece = Bytes::from_slice(alloc, &self.sent[self.read..end])?;
        self.read = end;
        Ok(piece)
    }

    /// The IDE receives these frames, which were read. Takes no memory.
    pub(crate) fn receive(&mut self, frames: &[u8])
        requires { self.old.received + length frames.now ≤ self.old.read }
        ensures { self.new ≡ record self.old { received = self.old.received + length frames.now } }
    {
        self.received += frames.len();
    }
}

/// An engine that comes with a key: it has sent its first packet.
pub(crate) fn begin<A: Engines>(
    alloc: Global,
    engines: &A,
    key: &[u8],
) -> Result<Engine<A::Session, A::End>, Memory>
    requires { IsKey key.now }
    ensures serves { IfOk result (λ engine. Serves (A.known engines.now) key.now [] engine) }
    ensures read { IfOk result (λ engine. engine.read ≡ 0) }
    ensures received { IfOk result (λ engine. engine.received ≡ 0) }
{
    let (session, init) = engines.begin(alloc, key)?;
    match packet_bytes(alloc, init.as_slice()) {
        Ok(frame) => Ok(Engine {
            session,
            ended: None,
            sent: frame.into_vec(),
            read: 0,
            received: 0,
            given: Vec::new(alloc),
            own: Vec::new(alloc),
        }),
        Err(Memory) => {
            drop(session);
            Err(Memory)
        }
    }
}

/// It takes whole commands, each with its NUL, and answers them, up to one that ends the session.
///
/// Once memory ran out nothing is said of it.
pub(crate) fn take_in<A: Engines>(
    engine: &mut Engine<A::Session, A::End>,
    alloc: Global,
    engines: &A,
    commands: &[u8],
    steps: &mut A::Steps,
) -> Result<(), Memory>
    requires { rest_of commands.now ≡ [] }
    ensures serves { (key : List ℕ) (lines : List (List ℕ)) → Serves (A.known engines.now) key lines engine.old
        → OnOk result (Serves (A.known engines.now) key (lines ++ commands_in commands.now) engine.new) }
    ensures read { OnOk result (engine.new.read ≡ engine.old.read) }
    ensures received { OnOk result (engine.new.received ≡ engine.old.received) }
{
    engine.given.extend_from_slice(commands)?;
    if engine.ended.is_some() {
        return Ok(());
    }
    let answer = lend(&mut engine.session, alloc, engines, commands, steps)?;
    engine.ended = note(alloc, answer, &mut engine.sent, &mut engine.own)?;
    Ok(())
}

/// Puts the packets of an answer, and what goes to the program's own output, and tells how the session has ended.
fn note<E: Drop>(
    alloc: Global,
    answer: Answer<E>,
    sent: &mut Vec<u8>,
    own: &mut Vec<u8>,
) -> Result<Option<E>, Memory>
    requires { AllByRecursion IsPacketText answer.packets }
    ensures sent { OnOk result (sent.new.items ≡ sent.old.items ++ flat_map packet_frame answer.packets) }
    ensures own { OnOk result (own.new.items ≡ own.old.items ++ answer.program) }
    ensures ended { IfOk result (λ ended. ended ≡ answer.ended) }
{
    let Answer {
        packets,
        program,
        ended,
    } = answer;
    append_packets(alloc, packets.as_slice(), sent)?;
    own.extend_from_slice(program.as_slice())?;
    Ok(ended)
}

/// Its session is over: the program runs on to its end, unless a command has killed it.
pub(crate) fn finish<A: Engines>(
    engine: Engine<A::Session, A::End>,
    alloc: Global,
    engines: &A,
    steps: &mut A::Steps,
) -> Result<Ended, Memory>
    ensures received { IfOk result (λ end. end.received.items ≡ take engine.received engine.sent.items) }
    ensures given { IfOk result (λ end. end.given.items ≡ engine.given.items) }
    ensures own { IfOk result (λ end. end.own.items
        ≡ engine.own.items ++ (A.known engines.now).rest_after engine.ended engine.session) }
    ensures outcome { IfOk result (λ end. end.outcome
        ≡ (A.known engines.now).ending_after engine.ended engine.session) }
{
    let Engine {
        session,
        ended,
        sent: mut received,
        read: _,
        received: count,
        given,
        mut own,
    } = engine;
    received.truncate(count);
    let (rest, outcome) = engines.finish(session, ended, alloc, steps)?;
    own.extend_from_slice(rest.as_slice())?;
    Ok(Ended {
        received,
        given,
        own,
        outcome,
    })
}
