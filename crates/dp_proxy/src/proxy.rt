//! The core: what each event leads to, over all links.
ghost use Rattle.std.specs.Prelude.{◌≡◌, [], List, false, true};
ghost use Rattle.dp_proxy.specs.declared.errors.ProxyError.TheVariants as any_error;
ghost use Rattle.dp_proxy.specs.declared.events.Event.{Event as Came};
ghost use Rattle.dp_proxy.specs.Pasts.{past_of};
ghost use Rattle.dp_proxy.specs.Invariant.{Represents, RepresentsAfter, is_memory};
ghost use Rattle.dp_proxy.specs.Steps.{Answers, HasHost};

use crate::acts::handle;
use crate::errors::ProxyError;
use crate::events::{Effect, Event};
use crate::kept::{Links, Step};
use dp_registry::Registry;
use std::alloc::Global;
use std::marker::Model;

/// A proxy without its links: which IDE holds which key, and what came of each link that was not handed out. Contracts
/// see the journal of its registry, what is kept of each link, and whether memory ran out.
#[derive(Debug, Drop)]
pub struct Proxy {
    alloc: Global,
    registry: Registry,
    links: Links,
    /// Whether memory ran out.
    failed: bool,
}

impl Model for Proxy {
    ghost use Rattle.dp_proxy.specs.Invariant.{AreSound, Keeps};

    ghost Value = { Keeps };

    ghost view = { λ p. record { journal = p.registry; links = p.links; failed = p.failed } };

    ghost invariant = { λ p. AreSound (record { journal = p.registry; links = p.links; failed = p.failed }) };
}

impl Proxy {
    /// A proxy before any event. Takes no memory.
    pub fn new(alloc: Global) -> Proxy
        ensures stands { Represents result [] }
        ensures whole { result.failed ≡ false }
    {
        Proxy {
            alloc,
            registry: Registry::new(alloc),
            links: Links::new(alloc),
            failed: false,
        }
    }

    /// Takes one event. An IDE that connects has a host.
    ///
    /// `BadInit` exactly for an engine that comes on a link that was not made, with what is no key; nothing changes.
    /// `BadFrame` exactly where a lane is bad and the event completes no frame; it closes the link. Where memory runs
    /// out, and then alone, the proxy has failed for good: each later event is answered so.
    pub fn step(&mut self, event: &Event) -> Result<Effect, ProxyError>
        requires host { HasHost event.now.act }
        ensures answers { (events : List Came) → Represents self.old events
            → Answers (past_of events) event.now.link event.now.act result }
        ensures stands { (events : List Came) → Represents self.old events
            → RepresentsAfter self.new events event.now result }
        ensures fails { self.new.failed ≡ is_memory result }
        ensures stays { self.old.failed ≡ true → is_memory result ≡ true }
    {
        if self.failed {
            return Err(ProxyError::Memory);
        }
        match self.lead(event) {
            Ok(effect) => Ok(effect),
            Err(ProxyError::BadInit) => Err(ProxyError::BadInit),
            Err(ProxyError::BadFrame { offset }) => Err(ProxyError::BadFrame { offset }),
            Err(ProxyError::Memory) => Err(self.fail()),
        }
    }

    /// From now on it answers that it is out of memory.
    fn fail(&mut self) -> ProxyError
        ensures memory { result ≡ any_error.Memory }
        ensures fails { self.new.failed ≡ true }
    {
        self.failed = true;
        ProxyError::Memory
    }

    /// The same as a step; once memory ran out it is not noted yet.
    fn lead(&mut self, event: &Event) -> Result<Effect, ProxyError>
        requires host { HasHost event.now.act }
        ensures answers { (events : List Came) → Represents self.old events
            → Answers (past_of events) event.now.link event.now.act result }
        ensures stands { (events : List Came) → Represents self.old events
            → RepresentsAfter self.new events event.now result }
        ensures kept { self.new.failed ≡ self.old.failed }
    {
        let kept = self.links.take(event.link);
        let step = handle(self.alloc, &mut self.registry, kept, &event.act)?;
        let Step { kept, answer } = step;
        self.links.put(event.link, kept)?;
        answer
    }
}
