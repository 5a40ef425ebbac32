//! A net in memory, which gives the links and gates that it was made with.
ghost use Rattle.std.specs.Prelude.{◌≡◌, ◌↔◌, ◌⊎◌, ◌+◌, ◌≤◌, ◌∷◌, ◌++◌, [], All, if◌then◌else◌, IfOk, OnErr, IsErr};
ghost use Rattle.std.specs.Prelude.{IsOk, IsTrue, Some, is_err, is_ok, IfSome, IsNone};
ghost use Rattle.std.specs.Vec.Iter.{into_iter_items};
ghost use Rattle.dp_outside.specs.Causes.{HasCause};
ghost use Rattle.dp_outside.specs.Fakes.{after_call, is_due};
ghost use Rattle.dp_outside.specs.Links.{CountsReturned, made};
ghost use Rattle.dp_memory_links.specs.Fakes.{
  IsFreshGate,
  IsFreshPart,
  first_net,
  first_part,
  later_parts,
  net_of,
  no_net_part,
  door_seen,
  link_seen,
};

use crate::{DialPart, ListDialer, ListGate};
use dp_outside::{ByteSink, ByteSource, Dialer, Failed, GhostList, Host, Memory, Net};
use std::alloc::Global;
use std::marker::Model;
use std::vec::IntoIter;

/// The links and gates that a net has to give, in order, and the numbers of its calls that fail, counted from 1. Only
/// calls that can fail are counted: `dial`, `gate` and `twin`.
#[derive(Drop)]
pub struct NetPart {
    pub links: Vec<(ByteSource, ByteSink)>,
    pub gates: Vec<ListGate>,
    pub fails: Vec<u64>,
}

impl Model for NetPart {
    ghost use Rattle.dp_memory_links.specs.Fakes.{NetPartState};

    ghost Value = { NetPartState };

    ghost view = { λ p. record {
      links = p.links.items;
      gates = p.gates.items;
      fails = p.fails.items;
    } };
}

/// A net of links and gates in memory, which fails where it is told to, and where nothing is left to give.
#[derive(Drop)]
pub struct ListNet {
    alloc: Global,
    dialer: ListDialer,
    gates: IntoIter<ListGate, Global>,
    parts: IntoIter<NetPart, Global>,
    requested: GhostList<u16, bool, ()>,
    shut: GhostList<ListGate, (), ()>,
}

impl Model for ListNet {
    ghost use Rattle.std.specs.Prelude.{All, map};
    ghost use Rattle.std.specs.Vec.Iter.{into_iter_items};
    ghost use Rattle.dp_memory_links.specs.Fakes.{IsFreshGate, IsFreshPart, NetState, door_seen};

    ghost Value = { NetState };

    ghost view = { λ n. record {
      dialer = n.dialer;
      gates = into_iter_items n.gates;
      parts = into_iter_items n.parts;
      asked_gates = map (λ t. (t.0, t.1.0)) n.requested.items;
      shut_doors = map (λ t. door_seen t.0) n.shut.items;
    } };

    // Each gate that it has to give is fresh: so is each that it gives.
    ghost invariant = { λ n. All IsFreshGate (into_iter_items n.gates) × All IsFreshPart (into_iter_items n.parts) };
}

impl ListNet {
    /// A net that works by the first part; each twin gets the next. The sources, sinks and gates in them are fresh.
    pub fn new(alloc: Global, parts: Vec<NetPart>) -> Result<Self, Memory>
        requires { All IsFreshPart parts.items }
        ensures first { IfOk result (λ net. net ≡ first_net parts.items) }
        ensures sure { IsOk result }
    {
        let mut parts = parts.into_iter();
        let part = next_part(alloc, &mut parts);
        Ok(Self::of(alloc, part, parts))
    }

    /// A net that works by this part and gives away these.
    fn of(alloc: Global, part: NetPart, parts: IntoIter<NetPart, Global>) -> Self
        requires fresh { IsFreshPart part }
        requires fresh_later { All IsFreshPart (into_iter_items parts) }
        ensures { result ≡ net_of part (into_iter_items parts) }
    {
        let dialled = DialPart {
            links: part.links,
            fails: part.fails,
        };
        let none = Vec::new(alloc);
        ListNet {
            alloc,
            dialer: ListDialer::of(alloc, dialled, none.into_iter()),
            gates: part.gates.into_iter(),
            parts,
            requested: GhostList::new(),
            shut: GhostList::new(),
        }
    }

    /// The next gate, where one is left.
    fn next_gate(&mut self) -> Option<ListGate>
        ensures first { IfSome result (λ gate. self.old.gates ≡ gate ∷ self.new.gates) }
        ensures none { IsNone result → (self.old.gates ≡ []) × (self.new.gates ≡ []) }
        ensures fresh { IfSome result IsFreshGate }
        ensures dialer { self.new.dialer ≡ self.old.dialer }
        ensures parts { self.new.parts ≡ self.old.parts }
        ensures requested { self.new.asked_gates ≡ self.old.asked_gates }
        ensures shut { self.new.shut_doors ≡ self.old.shut_doors }
    {
        self.gates.next()
    }

    /// The next gate at this port, where one is left and the call does not fail.
    fn open(&mut self, port: u16) -> Result<ListGate, Failed>
        ensures cause { HasCause self.old.dialer.plan.faults self.new.dialer.plan.faults result }
        ensures due { IsErr result ↔ (IsTrue (is_due self.old.dialer.plan) ⊎ (self.old.gates ≡ [])) }
        ensures fresh { IfOk result IsFreshGate }
        ensures after { self.new.dialer ≡ record self.old.dialer {
          plan = after_call self.old.dialer.plan (is_err result);
        } }
        ensures gives { IfOk result (λ door. door ≡ record (first_part door self.old.gates) { port = port }) }
        ensures gates { self.new.gates ≡ (if is_err result then self.old.gates else later_parts self.old.gates) }
        ensures parts { self.new.parts ≡ self.old.parts }
        ensures requested { self.new.asked_gates ≡ self.old.asked_gates }
        ensures shut { self.new.shut_doors ≡ self.old.shut_doors }
    {
        self.dialer.call()?;
        match self.next_gate() {
            Some(door) => Ok(door.at(port)),
            None => {
                self.dialer.fault();
                Err(Failed)
            }
        }
    }
}

/// The next part, or an empty one where none is left.
fn next_part(alloc: Global, parts: &mut IntoIter<NetPart, Global>) -> NetPart
    requires { All IsFreshPart (into_iter_items parts.old) }
    ensures fresh { IsFreshPart result }
    ensures fresh_later { All IsFreshPart (into_iter_items parts.new) }
    ensures first { result ≡ first_part no_net_part (into_iter_items parts.old) }
    ensures later { into_iter_items parts.new ≡ later_parts (into_iter_items parts.old) }
{
    match parts.next() {
        Some(part) => part,
        None => NetPart {
            links: Vec::new(alloc),
            gates: Vec::new(alloc),
            fails: Vec::new(alloc),
        },
    }
}

impl Dialer for ListNet {
    type In = ByteSource;

    type Out = ByteSink;

    ghost faults = { λ n. n.dialer.plan.faults };

    ghost returned = { λ n. n.dialer.returned };

    ghost dials = { λ n. Some n.dialer.dials };

    ghost retired = { λ n. Some n.dialer.retired };

    ghost asked_gates = { λ n. Some n.asked_gates };

    ghost shut_doors = { λ n. Some n.shut_doors };

    fn dial(&mut self, host: &Host, port: u16) -> Result<(ByteSource, ByteSink), Failed>
        ensures source { IfOk result (λ link. link.0.plan.faults ≡ 0) }
        ensures sink { IfOk result (λ link. link.1.plan.faults ≡ 0) }
        ensures unread { IfOk result (λ link. link.0.tape.given ≡ []) }
        ensures cause { HasCause self.old.dialer.plan.faults self.new.dialer.plan.faults result }
        ensures dials { self.new.dialer.dials ≡ self.old.dialer.dials ++ (record {
          host = host.now;
          port = port;
          made = made link_seen result;
        } ∷ []) }
        ensures returned { self.new.dialer.returned ≡ self.old.dialer.returned }
        ensures retired { self.new.dialer.retired ≡ self.old.dialer.retired }
        ensures requested { self.new.asked_gates ≡ self.old.asked_gates }
        ensures shut { self.new.shut_doors ≡ self.old.shut_doors }

        // It fails exactly where its plan says so or no link is left, and gives the next.
        ensures due { IsErr result ↔ (IsTrue (is_due self.old.dialer.plan) ⊎ (self.old.dialer.links ≡ [])) }
        ensures gives { IfOk result (λ link. self.old.dialer.links ≡ link ∷ self.new.dialer.links) }
        ensures kept { OnErr result (self.new.dialer.links ≡ self.old.dialer.links) }
        ensures plan { self.new.dialer.plan ≡ after_call self.old.dialer.plan (is_err result) }
        ensures gates { self.new.gates ≡ self.old.gates }
        ensures parts { self.new.parts ≡ self.old.parts }
    {
        self.dialer.dial(host, port)
    }

    fn retire(&mut self, source: ByteSource, sink: ByteSink)
        ensures faults { self.new.dialer.plan.faults ≡ self.old.dialer.plan.faults }
        ensures returned { CountsReturned (source.plan.faults + sink.plan.faults)
            self.old.dialer.returned self.new.dialer.returned }
        ensures later { self.old.dialer.returned ≤ self.new.dialer.returned }
        ensures dials { self.new.dialer.dials ≡ self.old.dialer.dials }
        ensures retired { self.new.dialer.retired ≡ self.old.dialer.retired ++ (link_seen (source, sink) ∷ []) }
        ensures requested { self.new.asked_gates ≡ self.old.asked_gates }
        ensures shut { self.new.shut_doors ≡ self.old.shut_doors }
        ensures links { self.new.dialer.links ≡ self.old.dialer.links }
        ensures plan { self.new.dialer.plan ≡ self.old.dialer.plan }
        ensures gates { self.new.gates ≡ self.old.gates }
        ensures parts { self.new.parts ≡ self.old.parts }
    {
        self.dialer.retire(source, sink);
    }

    fn twin(&mut self) -> Result<Self, Failed>
        ensures fresh { IfOk result (λ twin. twin.dialer.plan.faults ≡ 0) }
        ensures fresh_returned { IfOk result (λ twin. twin.dialer.returned ≡ 0) }
        ensures fresh_dials { IfOk result (λ twin. twin.dialer.dials ≡ []) }
        ensures fresh_retired { IfOk result (λ twin. twin.dialer.retired ≡ []) }
        ensures fresh_requested { IfOk result (λ twin. twin.asked_gates ≡ []) }
        ensures fresh_shut { IfOk result (λ twin. twin.shut_doors ≡ []) }
        ensures cause { HasCause self.old.dialer.plan.faults self.new.dialer.plan.faults result }
        ensures after { self.new.dialer ≡ record self.old.dialer {
          plan = after_call self.old.dialer.plan (is_err result);
        } }
        ensures requested { self.new.asked_gates ≡ self.old.asked_gates }
        ensures shut { self.new.shut_doors ≡ self.old.shut_doors }

        // It fails exactly where its plan says so, and gives away the next part.
        ensures due { is_err result ≡ is_due self.old.dialer.plan }
        ensures next { IfOk result (λ twin. twin ≡ net_of (first_part no_net_part self.old.parts) []) }
        ensures parts { self.new.parts ≡ (if is_err result then self.old.parts else later_parts self.old.parts) }
        ensures gates { self.new.gates ≡ self.old.gates }
    {
        self.dialer.call()?;
        let part = next_part(self.alloc, &mut self.parts);
        let none = Vec::new(self.alloc);
        Ok(Self::of(self.alloc, part, none.into_iter()))
    }
}

impl Net for ListNet {
    type Door = ListGate;

    fn gate(&mut self, port: u16) -> Result<ListGate, Failed>
        ensures fresh { IfOk result (λ door. door.plan.faults ≡ 0) }
        ensures fresh_returned { IfOk result (λ door. door.returned ≡ 0) }
        ensures port { IfOk result (λ door. door.port ≡ port) }
        ensures fresh_accepts { IfOk result (λ door. door.accepts ≡ []) }
        ensures fresh_accepted { IfOk result (λ door. door.accepted ≡ []) }
        ensures fresh_retired { IfOk result (λ door. door.retired ≡ []) }
        ensures cause { HasCause self.old.dialer.plan.faults self.new.dialer.plan.faults result }
        ensures requested { self.new.asked_gates ≡ self.old.asked_gates ++ ((port, is_ok result) ∷ []) }
        ensures shut { self.new.shut_doors ≡ self.old.shut_doors }

        // It fails exactly where its plan says so or no gate is left, and gives the next, at the port that was asked
        // for.
        ensures due { IsErr result ↔ (IsTrue (is_due self.old.dialer.plan) ⊎ (self.old.gates ≡ [])) }
        ensures after { self.new.dialer ≡ record self.old.dialer {
          plan = after_call self.old.dialer.plan (is_err result);
        } }
        ensures gives { IfOk result (λ door. door ≡ record (first_part door self.old.gates) { port = port }) }
        ensures gates { self.new.gates ≡ (if is_err result then self.old.gates else later_parts self.old.gates) }
        ensures parts { self.new.parts ≡ self.old.parts }
    {
        let result = self.open(port);
        self.requested = self.requested.with(&port, &result.is_ok(), &());
        result
    }

    fn shut(&mut self, door: ListGate)
        ensures faults { self.new.dialer.plan.faults ≡ self.old.dialer.plan.faults }
        ensures returned { CountsReturned (door.plan.faults + door.returned)
            self.old.dialer.returned self.new.dialer.returned }
        ensures later { self.old.dialer.returned ≤ self.new.dialer.returned }
        ensures requested { self.new.asked_gates ≡ self.old.asked_gates }
        ensures shut { self.new.shut_doors ≡ self.old.shut_doors ++ (door_seen door ∷ []) }
        ensures same { self.new.dialer ≡ record self.old.dialer { returned = self.new.dialer.returned } }
        ensures gates { self.new.gates ≡ self.old.gates }
        ensures parts { self.new.parts ≡ self.old.parts }
    {
        self.shut = self.shut.with(&door, &(), &());
        if door.has_failed() {
            self.dialer.count_returned();
        }
    }
}
