//! A gate in memory, which gives the links that it was made with.
ghost use Rattle.std.specs.Prelude.{◌≡◌, ◌↔◌, ◌⊎◌, ◌+◌, ◌<◌, ◌≤◌, ◌∷◌, ◌++◌, [], All, if◌then◌else◌, IfOk};
ghost use Rattle.std.specs.Prelude.{OnErr, IsErr, IsOk, IsTrue, Some, is_err, is_ok, map};
ghost use Rattle.std.specs.Option.{option_to_list};
ghost use Rattle.dp_outside.specs.Causes.{HasCause};
ghost use Rattle.dp_outside.specs.Fakes.{after_call, is_due};
ghost use Rattle.dp_outside.specs.Links.{CountsReturned, made};
ghost use Rattle.std.specs.Vec.Iter.{into_iter_items};
ghost use Rattle.dp_memory_links.specs.Fakes.{
  AreFreshCalls,
  IsFreshCall,
  gate_of,
  first_gate,
  first_part,
  later_parts,
  no_gate_part,
  call_seen,
  link_seen,
};

use crate::links::have_failed;
use dp_outside::{
    ByteSink, ByteSource, FailPlan, Failed, Faults, Gate, GhostList, Host, Memory, Sink, Source,
};
use std::alloc::Global;
use std::marker::Model;
use std::vec::IntoIter;

/// The links that a gate has to give, in order, each with the host at its other end, and the numbers of its calls that
/// fail, counted from 1. Only calls that can fail are counted: `accept` and `twin`.
#[derive(Debug, Drop)]
pub struct GatePart {
    pub links: Vec<(ByteSource, ByteSink, Host)>,
    pub fails: Vec<u64>,
}

impl Model for GatePart {
    ghost use Rattle.dp_memory_links.specs.Fakes.{GatePartState};

    ghost Value = { GatePartState };

    ghost view = { λ p. record { links = p.links.items; fails = p.fails.items } };
}

/// A gate of links in memory, which fails where it is told to, and where no link is left.
#[derive(Drop)]
pub struct ListGate {
    alloc: Global,
    port: u16,
    links: IntoIter<(ByteSource, ByteSink, Host), Global>,
    plan: FailPlan,
    parts: IntoIter<GatePart, Global>,
    returned: Faults,
    accepted: GhostList<Result<(ByteSource, ByteSink, Host), Failed>, (), ()>,
    retired: GhostList<ByteSource, ByteSink, ()>,
}

impl Model for ListGate {
    ghost use Rattle.std.specs.Prelude.{All, flat_map, is_ok, map};
    ghost use Rattle.std.specs.Option.{option_to_list};
    ghost use Rattle.std.specs.Vec.Iter.{into_iter_items};
    ghost use Rattle.dp_outside.specs.Links.{made};
    ghost use Rattle.dp_memory_links.specs.Fakes.{AreFreshCalls, GateState, IsFreshCall, call_seen, link_seen};

    ghost Value = { GateState };

    ghost view = { λ d. record {
      port = d.port;
      links = into_iter_items d.links;
      plan = d.plan;
      parts = into_iter_items d.parts;
      returned = d.returned;
      accepts = map (λ t. is_ok t.0) d.accepted.items;
      accepted = flat_map (λ t. option_to_list (made call_seen t.0)) d.accepted.items;
      retired = map (λ t. link_seen (t.0, t.1.0)) d.retired.items;
    } };

    // Each link that it has to give is fresh: so is each that it gives.
    ghost invariant = { λ d. All IsFreshCall (into_iter_items d.links) × AreFreshCalls (into_iter_items d.parts) };
}

impl ListGate {
    /// A gate of this port that works by the first part; each twin gets the next. The sources and sinks in them are
    /// fresh.
    pub fn new(alloc: Global, port: u16, parts: Vec<GatePart>) -> Result<Self, Memory>
        requires { AreFreshCalls parts.items }
        ensures first { IfOk result (λ gate. gate ≡ first_gate port parts.items) }
        ensures sure { IsOk result }
    {
        let mut parts = parts.into_iter();
        let part = next_part(alloc, &mut parts);
        Ok(Self::of(alloc, port, part, parts))
    }

    /// A gate that works by this part and gives away these.
    fn of(alloc: Global, port: u16, part: GatePart, parts: IntoIter<GatePart, Global>) -> Self
        requires fresh { All IsFreshCall part.links }
        requires fresh_later { AreFreshCalls (into_iter_items parts) }
        ensures { result ≡ gate_of port part (into_iter_items parts) }
    {
        ListGate {
            alloc,
            port,
            links: part.links.into_iter(),
            plan: FailPlan::new(part.fails),
            parts,
            returned: Faults::new(),
            accepted: GhostList::new(),
            retired: GhostList::new(),
        }
    }

    /// The same gate, at this port.
    pub(crate) fn at(self, port: u16) -> Self
        ensures { result ≡ record self { port = port } }
    {
        let mut gate = self;
        gate.port = port;
        gate
    }

    /// Whether it has failed, or something came back to it that had.
    pub(crate) fn has_failed(&self) -> bool
        ensures { IsTrue result ↔ (0 < self.now.plan.faults + self.now.returned) }
    {
        self.plan.faults() != 0 || self.returned.count() != 0
    }

    /// The next link, where one is left and the call does not fail.
    fn next_link(&mut self) -> Result<(ByteSource, ByteSink, Host), Failed>
        ensures cause { HasCause self.old.plan.faults self.new.plan.faults result }
        ensures due { IsErr result ↔ (IsTrue (is_due self.old.plan) ⊎ (self.old.links ≡ [])) }
        ensures gives { IfOk result (λ link. self.old.links ≡ link ∷ self.new.links) }
        ensures fresh { IfOk result IsFreshCall }
        ensures after { self.new ≡ record self.old {
          links = if is_err result then self.old.links else later_parts self.old.links;
          plan = after_call self.old.plan (is_err result);
        } }
    {
        self.plan.call()?;
        match self.links.next() {
            Some(link) => Ok(link),
            None => {
                self.plan.fault();
                Err(Failed)
            }
        }
    }
}

/// The next part, or an empty one where none is left.
fn next_part(alloc: Global, parts: &mut IntoIter<GatePart, Global>) -> GatePart
    requires { AreFreshCalls (into_iter_items parts.old) }
    ensures fresh { All IsFreshCall result.links }
    ensures fresh_later { AreFreshCalls (into_iter_items parts.new) }
    ensures first { result ≡ first_part no_gate_part (into_iter_items parts.old) }
    ensures later { into_iter_items parts.new ≡ later_parts (into_iter_items parts.old) }
{
    match parts.next() {
        Some(part) => part,
        None => GatePart {
            links: Vec::new(alloc),
            fails: Vec::new(alloc),
        },
    }
}

impl Gate for ListGate {
    type In = ByteSource;

    type Out = ByteSink;

    ghost faults = { λ d. d.plan.faults };

    ghost returned = { λ d. d.returned };

    ghost port = { λ d. d.port };

    ghost accepts = { λ d. Some d.accepts };

    ghost accepted = { λ d. Some d.accepted };

    ghost retired = { λ d. Some d.retired };

    fn accept(&mut self) -> Result<(ByteSource, ByteSink, Host), Failed>
        ensures source { IfOk result (λ link. link.0.plan.faults ≡ 0) }
        ensures sink { IfOk result (λ link. link.1.plan.faults ≡ 0) }
        ensures unread { IfOk result (λ link. link.0.tape.given ≡ []) }
        ensures cause { HasCause self.old.plan.faults self.new.plan.faults result }
        ensures accepts { self.new.accepts ≡ self.old.accepts ++ (is_ok result ∷ []) }
        ensures accepted { self.new.accepted ≡ self.old.accepted ++ option_to_list (made call_seen result) }
        ensures port { self.new.port ≡ self.old.port }
        ensures returned { self.new.returned ≡ self.old.returned }
        ensures retired { self.new.retired ≡ self.old.retired }

        // It fails exactly where its plan says so or no link is left, and gives the next.
        ensures due { IsErr result ↔ (IsTrue (is_due self.old.plan) ⊎ (self.old.links ≡ [])) }
        ensures gives { IfOk result (λ link. self.old.links ≡ link ∷ self.new.links) }
        ensures kept { OnErr result (self.new.links ≡ self.old.links) }
        ensures plan { self.new.plan ≡ after_call self.old.plan (is_err result) }
        ensures parts { self.new.parts ≡ self.old.parts }
    {
        let result = self.next_link();
        self.accepted = self.accepted.with(&result, &(), &());
        result
    }

    fn retire(&mut self, source: ByteSource, sink: ByteSink)
        ensures faults { self.new.plan.faults ≡ self.old.plan.faults }
        ensures returned { CountsReturned (source.plan.faults + sink.plan.faults) self.old.returned self.new.returned }
        ensures later { self.old.returned ≤ self.new.returned }
        ensures port { self.new.port ≡ self.old.port }
        ensures accepts { self.new.accepts ≡ self.old.accepts }
        ensures accepted { self.new.accepted ≡ self.old.accepted }
        ensures retired { self.new.retired ≡ self.old.retired ++ (link_seen (source, sink) ∷ []) }
        ensures links { self.new.links ≡ self.old.links }
        ensures plan { self.new.plan ≡ self.old.plan }
        ensures parts { self.new.parts ≡ self.old.parts }
    {
        self.retired = self.retired.with(&source, &sink, &());
        if have_failed(&source, &sink) {
            self.returned.raise();
        }
    }

    fn twin(&mut self) -> Result<Self, Failed>
        ensures fresh { IfOk result (λ twin. twin.plan.faults ≡ 0) }
        ensures fresh_returned { IfOk result (λ twin. twin.returned ≡ 0) }
        ensures same_port { IfOk result (λ twin. twin.port ≡ self.old.port) }
        ensures fresh_accepts { IfOk result (λ twin. twin.accepts ≡ []) }
        ensures fresh_accepted { IfOk result (λ twin. twin.accepted ≡ []) }
        ensures fresh_retired { IfOk result (λ twin. twin.retired ≡ []) }
        ensures cause { HasCause self.old.plan.faults self.new.plan.faults result }
        ensures returned { self.new.returned ≡ self.old.returned }
        ensures port { self.new.port ≡ self.old.port }
        ensures accepts { self.new.accepts ≡ self.old.accepts }
        ensures accepted { self.new.accepted ≡ self.old.accepted }
        ensures retired { self.new.retired ≡ self.old.retired }

        // It fails exactly where its plan says so, and gives away the next part.
        ensures due { is_err result ≡ is_due self.old.plan }
        ensures plan { self.new.plan ≡ after_call self.old.plan (is_err result) }
        ensures next { IfOk result (λ twin. twin ≡ gate_of self.old.port (first_part no_gate_part self.old.parts) []) }
        ensures parts { self.new.parts ≡ (if is_err result then self.old.parts else later_parts self.old.parts) }
        ensures links { self.new.links ≡ self.old.links }
    {
        self.plan.call()?;
        let part = next_part(self.alloc, &mut self.parts);
        let none = Vec::new(self.alloc);
        Ok(Self::of(self.alloc, self.port, part, none.into_iter()))
    }
}
