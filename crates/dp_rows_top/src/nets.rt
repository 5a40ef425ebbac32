//! A network in memory of one link, which keeps what was put on it.
ghost use Rattle.std.specs.Prelude.{◌≡◌, ◌+◌, ◌≤◌, [], IfOk, None};
ghost use Rattle.dp_outside.specs.Causes.{HasCause};
ghost use Rattle.dp_outside.specs.Links.{CountsReturned};

use crate::gates::OneGate;
use crate::links::{LinkPlan, have_failed, link_of};
use dp_outside::{ByteSink, ByteSource, Dialer, FailPlan, Failed, Faults, Host, Net};
use dp_rows::Memory;
use std::alloc::Global;

/// A network of at most one link, which the first dial gives, or the first gate.
#[derive(Drop)]
pub(crate) struct OneNet {
    alloc: Global,
    link: Option<LinkPlan>,
    plan: FailPlan,
    returned: Faults,
    sent: Option<ByteSink>,
}

impl OneNet {
    /// A network that gives this link, and of whose calls those of these numbers fail.
    pub(crate) fn new(alloc: Global, link: Option<LinkPlan>, fails: Vec<u64>) -> Self {
        OneNet {
            alloc,
            link,
            plan: FailPlan::new(fails),
            returned: Faults::new(),
            sent: None,
        }
    }

    /// Whether it has failed, or something came back to it that had.
    pub(crate) fn has_failed(&self) -> bool {
        self.plan.faults() != 0 || self.returned.count() != 0
    }

    /// What was put on the link that came back; nothing where none did.
    pub(crate) fn sent(&self) -> &[u8] {
        match &self.sent {
            Some(sink) => sink.taken(),
            None => &[],
        }
    }

    /// The plan of the link, where the call does not fail and it was not given yet.
    fn next_plan(&mut self) -> Result<LinkPlan, Failed>
        ensures cause { HasCause self.old.plan.faults self.new.plan.faults result }
        ensures returned { self.new.returned ≡ self.old.returned }
    {
        self.plan.call()?;
        match self.link.take() {
            Some(link) => Ok(link),
            None => {
                self.plan.fault();
                Err(Failed)
            }
        }
    }
}

impl Dialer for OneNet {
    type In = ByteSource;

    type Out = ByteSink;

    ghost faults = { λ net. net.plan.faults };

    ghost returned = { λ net. net.returned };

    ghost dials = { λ _. None };

    ghost retired = { λ _. None };

    ghost asked_gates = { λ _. None };

    ghost shut_doors = { λ _. None };

    fn dial(&mut self, _host: &Host, _port: u16) -> Result<(ByteSource, ByteSink), Failed>
        ensures source { IfOk result (λ link. link.0.plan.faults ≡ 0) }
        ensures sink { IfOk result (λ link. link.1.plan.faults ≡ 0) }
        ensures unread { IfOk result (λ link. link.0.tape.given ≡ []) }
        ensures cause { HasCause self.old.plan.faults self.new.plan.faults result }
        ensures returned { self.new.returned ≡ self.old.returned }
    {
        let plan = self.next_plan()?;
        match link_of(self.alloc, plan) {
            Ok(link) => Ok(link),
            Err(_) => {
                self.plan.fault();
                Err(Failed)
            }
        }
    }

    fn retire(&mut self, source: ByteSource, sink: ByteSink)
        ensures faults { self.new.plan.faults ≡ self.old.plan.faults }
        ensures returned { CountsReturned (source.plan.faults + sink.plan.faults) self.old.returned self.new.returned }
        ensures later { self.old.returned ≤ self.new.returned }
    {
        if have_failed(&source, &sink) {
            self.returned.raise();
        }
        self.sent = Some(sink);
    }

    fn twin(&mut self) -> Result<Self, Failed>
        ensures fresh { IfOk result (λ twin. twin.plan.faults ≡ 0) }
        ensures fresh_returned { IfOk result (λ twin. twin.returned ≡ 0) }
        ensures cause { HasCause self.old.plan.faults self.new.plan.faults result }
        ensures returned { self.new.returned ≡ self.old.returned }
    {
        self.plan.fault();
        Err(Failed)
    }
}

impl Net for OneNet {
    type Door = OneGate;

    fn gate(&mut self, port: u16) -> Result<OneGate, Failed>
        ensures fresh { IfOk result (λ door. door.faults ≡ 0) }
        ensures fresh_returned { IfOk result (λ door. door.returned ≡ 0) }
        ensures port { IfOk result (λ door. door.port ≡ port) }
        ensures cause { HasCause self.old.plan.faults self.new.plan.faults result }
        ensures returned { self.new.returned ≡ self.old.returned }
    {
        self.plan.call()?;
        Ok(OneGate::new(self.alloc, port, self.link.take()))
    }

    fn shut(&mut self, door: OneGate)
        ensures faults { self.new.plan.faults ≡ self.old.plan.faults }
        ensures returned { CountsReturned (door.faults + door.returned) self.old.returned self.new.returned }
        ensures later { self.old.returned ≤ self.new.returned }
    {
        if door.has_failed() {
            self.returned.raise();
        }
        self.sent = door.sent;
    }
}
