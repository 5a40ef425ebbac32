//! A gate in memory that gives one link, and keeps what was put on it.
ghost use Rattle.std.specs.Prelude.{◌≡◌, ◌↔◌, ◌+◌, ◌<◌, ◌≤◌, [], IfOk, IsTrue, None};
ghost use Rattle.dp_outside.specs.Causes.{HasCause};
ghost use Rattle.dp_outside.specs.Links.{CountsReturned};

use crate::links::{LinkPlan, have_failed, link_of};
use dp_outside::{ByteSink, ByteSource, Failed, Faults, Gate, Host};
use std::alloc::Global;

/// A gate of at most one link.
#[derive(Drop)]
pub(crate) struct OneGate {
    alloc: Global,
    port: u16,
    link: Option<LinkPlan>,
    faults: Faults,
    returned: Faults,
    pub(crate) sent: Option<ByteSink>,
}

impl OneGate {
    /// A gate of this port that gives this link.
    pub(crate) fn new(alloc: Global, port: u16, link: Option<LinkPlan>) -> Self
        ensures faults { result.faults ≡ 0 }
        ensures returned { result.returned ≡ 0 }
        ensures port { result.port ≡ port }
    {
        OneGate {
            alloc,
            port,
            link,
            faults: Faults::new(),
            returned: Faults::new(),
            sent: None,
        }
    }

    /// Whether it has failed, or its link had when it came back.
    pub(crate) fn has_failed(&self) -> bool
        ensures { IsTrue result ↔ (0 < self.now.faults + self.now.returned) }
    {
        self.faults.count() != 0 || self.returned.count() != 0
    }
}

impl Gate for OneGate {
    type In = ByteSource;

    type Out = ByteSink;

    ghost faults = { λ gate. gate.faults };

    ghost returned = { λ gate. gate.returned };

    ghost port = { λ gate. gate.port };

    ghost accepts = { λ _. None };

    ghost accepted = { λ _. None };

    ghost retired = { λ _. None };

    fn accept(&mut self) -> Result<(ByteSource, ByteSink, Host), Failed>
        ensures source { IfOk result (λ link. link.0.plan.faults ≡ 0) }
        ensures sink { IfOk result (λ link. link.1.plan.faults ≡ 0) }
        ensures unread { IfOk result (λ link. link.0.tape.given ≡ []) }
        ensures cause { HasCause self.old.faults self.new.faults result }
        ensures returned { self.new.returned ≡ self.old.returned }
        ensures port { self.new.port ≡ self.old.port }
    {
        let host = Host::of(b"127.0.0.1");
        if let (Some(plan), Some(host)) = (self.link.take(), host) {
            if let Ok((source, sink)) = link_of(self.alloc, plan) {
                return Ok((source, sink, host));
            }
        }
        self.faults.raise();
        Err(Failed)
    }

    fn retire(&mut self, source: ByteSource, sink: ByteSink)
        ensures faults { self.new.faults ≡ self.old.faults }
        ensures returned { CountsReturned (source.plan.faults + sink.plan.faults) self.old.returned self.new.returned }
        ensures later { self.old.returned ≤ self.new.returned }
        ensures port { self.new.port ≡ self.old.port }
    {
        if have_failed(&source, &sink) {
            self.returned.raise();
        }
        self.sent = Some(sink);
    }

    fn twin(&mut self) -> Result<Self, Failed>
        ensures fresh { IfOk result (λ twin. twin.faults ≡ 0) }
        ensures fresh_returned { IfOk result (λ twin. twin.returned ≡ 0) }
        ensures same_port { IfOk result (λ twin. twin.port ≡ self.old.port) }
        ensures cause { HasCause self.old.faults self.new.faults result }
        ensures returned { self.new.returned ≡ self.old.returned }
        ensures port { self.new.port ≡ self.old.port }
    {
        Ok(Self::new(self.alloc, self.port, None))
    }
}
