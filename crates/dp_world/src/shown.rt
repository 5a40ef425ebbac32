//! What the transcript shows of a link.
ghost use Rattle.std.specs.Prelude.{◌≡◌, IfOk, OnOk};
ghost use Rattle.dp_proxy.specs.declared.events.Effect.TheVariants as told;
ghost use Rattle.dp_world.specs.inner.Changes.{IsReadable, Reads, replied, received, IsTaken, Takes, After};

use crate::engine::{Engine, take_in};
use crate::engines::Engines;
use dp_bytes::{Bytes, Memory};
use dp_proxy::{Effect, Refusal};
use std::alloc::Global;

/// What the transcript shows of a link that was made.
#[derive(Drop)]
pub(crate) enum Shown<S, E> {
    /// An IDE of this host, and what it was sent: nothing, where it was not answered.
    Registration {
        host: Bytes,
        reply: Bytes,
    },
    /// An engine that was refused.
    Refused {
        key: Bytes,
        why: Refusal,
    },
    /// An engine with a session, and where its IDE is reached.
    Session {
        key: Bytes,
        host: Bytes,
        port: u16,
        engine: Engine<S, E>,
    },
}

impl<S, E> Shown<S, E> {
    /// The next bytes of its engine, at most so many; none where there is no engine.
    pub(crate) fn read(&mut self, alloc: Global, count: u32) -> Result<Bytes, Memory>
        requires { IsReadable self.old }
        ensures { IfOk result (λ bytes. Reads self.old count bytes self.new) }
    {
        match self {
            Shown::Session {
                key: _,
                host: _,
                port: _,
                engine,
            } => engine.next(alloc, count),
            _ => Ok(Bytes::of(Vec::new(alloc))),
        }
    }

    /// An IDE that asked is sent this.
    fn reply_with(&mut self, frame: Bytes)
        ensures { self.new ≡ replied self.old frame }
    {
        if let Shown::Registration { host: _, reply } = self {
            *reply = frame;
        }
    }

    /// The IDE of a session receives these frames.
    fn receive(&mut self, frames: &[u8])
        requires { IsTaken self.old (told.ToIde frames.now) }
        ensures { self.new ≡ received self.old frames.now }
    {
        if let Shown::Session {
            key: _,
            host: _,
            port: _,
            engine,
        } = self
        {
            engine.receive(frames);
        }
    }
}

/// The engine of a session takes these whole commands.
fn take<A: Engines>(
    shown: &mut Shown<A::Session, A::End>,
    alloc: Global,
    engines: &A,
    commands: &[u8],
    steps: &mut A::Steps,
) -> Result<(), Memory>
    requires { IsTaken shown.old (told.ToEngine commands.now) }
    ensures { OnOk result (Takes (A.known engines.now) shown.old commands.now shown.new) }
{
    match shown {
        Shown::Session {
            key: _,
            host: _,
            port: _,
            engine,
        } => take_in(engine, alloc, engines, commands, steps),
        _ => Ok(()),
    }
}

/// It takes what an act on its link has led to.
pub(crate) fn pass_on<A: Engines>(
    shown: &mut Shown<A::Session, A::End>,
    alloc: Global,
    engines: &A,
    effect: Effect,
    steps: &mut A::Steps,
) -> Result<(), Memory>
    requires { IsTaken shown.old effect }
    ensures { OnOk result (After (A.known engines.now) shown.old effect shown.new) }
{
    match effect {
        Effect::Reply(frame) => {
            shown.reply_with(frame);
            Ok(())
        }
        Effect::ToIde(frames) => {
            shown.receive(frames.as_slice());
            Ok(())
        }
        Effect::ToEngine(commands) => take(shown, alloc, engines, commands.as_slice(), steps),
        Effect::Nothing => Ok(()),
        Effect::Admitted {
            session: _,
            host: _,
            port: _,
        } => Ok(()),
        Effect::Turned(_) => Ok(()),
    }
}
