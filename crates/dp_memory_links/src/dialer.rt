//! A dialer in memory, which gives the links that it was made with.
ghost use Rattle.std.specs.Prelude.{◌≡◌, ◌↔◌, ◌⊎◌, ◌+◌, ◌≤◌, ◌∷◌, ◌++◌, [], All, if◌then◌else◌, IfOk, OnErr};
ghost use Rattle.std.specs.Prelude.{IsErr, IsOk, IsTrue, None, Some, is_err, map};
ghost use Rattle.dp_outside.specs.Causes.{HasCause, Rose};
ghost use Rattle.dp_outside.specs.Fakes.{after_call, is_due, one_more};
ghost use Rattle.dp_outside.specs.Links.{CountsReturned, made};
ghost use Rattle.std.specs.Vec.Iter.{into_iter_items};
ghost use Rattle.dp_memory_links.specs.Fakes.{
  AreFresh,
  IsFresh,
  dialer_of,
  first_dialer,
  first_part,
  later_parts,
  no_dial_part,
  link_seen,
};

use crate::links::have_failed;
use dp_outside::{
    ByteSink, ByteSource, Dialer, FailPlan, Failed, Faults, GhostList, Host, Memory, Sink, Source,
};
use std::alloc::Global;
use std::marker::Model;
use std::vec::IntoIter;

/// The links that a dialer has to give, in order, and the numbers of its calls that fail, counted from 1. Only calls
/// that can fail are counted: `dial` and `twin`, of a net `gate` too.
#[derive(Debug, Drop)]
pub struct DialPart {
    pub links: Vec<(ByteSource, ByteSink)>,
    pub fails: Vec<u64>,
}

impl Model for DialPart {
    ghost use Rattle.dp_memory_links.specs.Fakes.{DialPartState};

    ghost Value = { DialPartState };

    ghost view = { λ p. record { links = p.links.items; fails = p.fails.items } };
}

/// A dialer of links in memory, which fails where it is told to, and where no link is left.
#[derive(Drop)]
pub struct ListDialer {
    alloc: Global,
    links: IntoIter<(ByteSource, ByteSink), Global>,
    plan: FailPlan,
    parts: IntoIter<DialPart, Global>,
    returned: Faults,
    dials: GhostList<Host, u16, Result<(ByteSource, ByteSink), Failed>>,
    retired: GhostList<ByteSource, ByteSink, ()>,
}

impl Model for ListDialer {
    ghost use Rattle.std.specs.Prelude.{All, map};
    ghost use Rattle.std.specs.Vec.Iter.{into_iter_items};
    ghost use Rattle.dp_outside.specs.Links.{made};
    ghost use Rattle.dp_memory_links.specs.Fakes.{AreFresh, DialerState, IsFresh, link_seen};

    ghost Value = { DialerState };

    ghost view = { λ d. record {
      links = into_iter_items d.links;
      plan = d.plan;
      parts = into_iter_items d.parts;
      returned = d.returned;
      dials = map (λ t. record { host = t.0; port = t.1.0; made = made link_seen t.1.1 }) d.dials.items;
      retired = map (λ t. link_seen (t.0, t.1.0)) d.retired.items;
    } };

    // Each link that it has to give is fresh: so is each that it gives.
    ghost invariant = { λ d. All IsFresh (into_iter_items d.links) × AreFresh (into_iter_items d.parts) };
}

impl ListDialer {
    /// A dialer that works by the first part; each twin gets the next. The sources and sinks in them are fresh.
    pub fn new(alloc: Global, parts: Vec<DialPart>) -> Result<Self, Memory>
        requires { AreFresh parts.items }
        ensures first { IfOk result (λ dialer. dialer ≡ first_dialer parts.items) }
        ensures sure { IsOk result }
    {
        let mut parts = parts.into_iter();
        let part = next_part(alloc, &mut parts);
        Ok(Self::of(alloc, part, parts))
    }

    /// A dialer that works by this part and gives away these.
    pub(crate) fn of(alloc: Global, part: DialPart, parts: IntoIter<DialPart, Global>) -> Self
        requires fresh { All IsFresh part.links }
        requires fresh_later { AreFresh (into_iter_items parts) }
        ensures { result ≡ dialer_of part (into_iter_items parts) }
    {
        ListDialer {
            alloc,
            links: part.links.into_iter(),
            plan: FailPlan::new(part.fails),
            parts,
            returned: Faults::new(),
            dials: GhostList::new(),
            retired: GhostList::new(),
        }
    }

    /// Counts a call that can fail, and a fault where it is one of those that do.
    pub(crate) fn call(&mut self) -> Result<(), Failed>
        ensures cause { HasCause self.old.plan.faults self.new.plan.faults result }
        ensures due { is_err result ≡ is_due self.old.plan }
        ensures after { self.new ≡ record self.old { plan = after_call self.old.plan (is_err result) } }
    {
        self.plan.call()
    }

    /// Counts a fault of the last call.
    pub(crate) fn fault(&mut self)
        ensures rose { Rose self.old.plan.faults self.new.plan.faults }
        ensures later { self.old.plan.faults ≤ self.new.plan.faults }
        ensures after { self.new ≡ record self.old {
          plan = record self.old.plan
              { faults = one_more self.old.plan.faults };
        } }
    {
        self.plan.fault();
    }

    /// Counts that something came back that had failed.
    pub(crate) fn count_returned(&mut self)
        ensures rose { Rose self.old.returned self.new.returned }
        ensures later { self.old.returned ≤ self.new.returned }
        ensures after { self.new ≡ record self.old { returned = one_more self.old.returned } }
    {
        self.returned.raise();
    }

    /// The next link, where one is left and the call does not fail.
    fn next_link(&mut self) -> Result<(ByteSource, ByteSink), Failed>
        ensures cause { HasCause self.old.plan.faults self.new.plan.faults result }
        ensures due { IsErr result ↔ (IsTrue (is_due self.old.plan) ⊎ (self.old.links ≡ [])) }
        ensures gives { IfOk result (λ link. self.old.links ≡ link ∷ self.new.links) }
        ensures fresh { IfOk result IsFresh }
        ensures after { self.new ≡ record self.old {
          links = if is_err result then self.old.links else later_parts self.old.links;
          plan = after_call self.old.plan (is_err result);
        } }
    {
        self.plan.call()?;
        match self.links.next() {
            Some(link) => Ok(link),
            None => {
                self.plan.fault();
                Err(Failed)
            }
        }
    }
}

/// The next part, or an empty one where none is left.
fn next_part(alloc: Global, parts: &mut IntoIter<DialPart, Global>) -> DialPart
    requires { AreFresh (into_iter_items parts.old) }
    ensures fresh { All IsFresh result.links }
    ensures fresh_later { AreFresh (into_iter_items parts.new) }
    ensures first { result ≡ first_part no_dial_part (into_iter_items parts.old) }
    ensures later { into_iter_items parts.new ≡ later_parts (into_iter_items parts.old) }
{
    match parts.next() {
        Some(part) => part,
        None => DialPart {
            links: Vec::new(alloc),
            fails: Vec::new(alloc),
        },
    }
}

impl Dialer for ListDialer {
    type In = ByteSource;

    type Out = ByteSink;

    ghost faults = { λ d. d.plan.faults };

    ghost returned = { λ d. d.returned };

    ghost dials = { λ d. Some d.dials };

    ghost retired = { λ d. Some d.retired };

    ghost asked_gates = { λ _. None };

    ghost shut_doors = { λ _. None };

    fn dial(&mut self, host: &Host, port: u16) -> Result<(ByteSource, ByteSink), Failed>
        ensures source { IfOk result (λ link. link.0.plan.faults ≡ 0) }
        ensures sink { IfOk result (λ link. link.1.plan.faults ≡ 0) }
        ensures unread { IfOk result (λ link. link.0.tape.given ≡ []) }
        ensures cause { HasCause self.old.plan.faults self.new.plan.faults result }
        ensures dials { self.new.dials ≡ self.old.dials ++ (record {
          host = host.now;
          port = port;
          made = made link_seen result;
        } ∷ []) }
        ensures returned { self.new.returned ≡ self.old.returned }
        ensures retired { self.new.retired ≡ self.old.retired }

        // It fails exactly where its plan says so or no link is left, and gives the next.
        ensures due { IsErr result ↔ (IsTrue (is_due self.old.plan) ⊎ (self.old.links ≡ [])) }
        ensures gives { IfOk result (λ link. self.old.links ≡ link ∷ self.new.links) }
        ensures kept { OnErr result (self.new.links ≡ self.old.links) }
        ensures plan { self.new.plan ≡ after_call self.old.plan (is_err result) }
        ensures parts { self.new.parts ≡ self.old.parts }
    {
        let result = self.next_link();
        self.dials = self.dials.with(host, &port, &result);
        result
    }

    fn retire(&mut self, source: ByteSource, sink: ByteSink)
        ensures faults { self.new.plan.faults ≡ self.old.plan.faults }
        ensures returned { CountsReturned (source.plan.faults + sink.plan.faults) self.old.returned self.new.returned }
        ensures later { self.old.returned ≤ self.new.returned }
        ensures dials { self.new.dials ≡ self.old.dials }
        ensures retired { self.new.retired ≡ self.old.retired ++ (link_seen (source, sink) ∷ []) }
        ensures links { self.new.links ≡ self.old.links }
        ensures plan { self.new.plan ≡ self.old.plan }
        ensures parts { self.new.parts ≡ self.old.parts }
    {
        self.retired = self.retired.with(&source, &sink, &());
        if have_failed(&source, &sink) {
            self.returned.raise();
        }
    }

    fn twin(&mut self) -> Result<Self, Failed>
        ensures fresh { IfOk result (λ twin. twin.plan.faults ≡ 0) }
        ensures fresh_returned { IfOk result (λ twin. twin.returned ≡ 0) }
        ensures fresh_dials { IfOk result (λ twin. twin.dials ≡ []) }
        ensures fresh_retired { IfOk result (λ twin. twin.retired ≡ []) }
        ensures cause { HasCause self.old.plan.faults self.new.plan.faults result }
        ensures returned { self.new.returned ≡ self.old.returned }
        ensures dials { self.new.dials ≡ self.old.dials }
        ensures retired { self.new.retired ≡ self.old.retired }

        // It fails exactly where its plan says so, and gives away the next part.
        ensures due { is_err result ≡ is_due self.old.plan }
        ensures plan { self.new.plan ≡ after_call self.old.plan (is_err result) }
        ensures next { IfOk result (λ twin. twin ≡ dialer_of (first_part no_dial_part self.old.parts) []) }
        ensures parts { self.new.parts ≡ (if is_err result then self.old.parts else later_parts self.old.parts) }
        ensures links { self.new.links ≡ self.old.links }
    {
        self.plan.call()?;
        let part = next_part(self.alloc, &mut self.parts);
        let none = Vec::new(self.alloc);
        Ok(Self::of(self.alloc, part, none.into_iter()))
    }
}
