//! A gate in memory that says how many links came back.
ghost use Rattle.std.specs.Prelude.{◌≡◌, ◌+◌, ◌≤◌, ◌∷◌, ◌++◌, [], IfOk, Some, is_ok};
ghost use Rattle.std.specs.Option.{option_to_list};
ghost use Rattle.dp_outside.specs.Causes.{HasCause};
ghost use Rattle.dp_outside.specs.Links.{CountsReturned, made};
ghost use Rattle.dp_memory_links.specs.Fakes.{call_seen, link_seen};

use dp_memory_links::ListGate;
use dp_outside::{ByteSink, ByteSource, Failed, Gate, Host};

/// A gate in memory, and how many links came back to it.
#[derive(Drop)]
pub struct CountedGate {
    gate: ListGate,
    retired: u32,
}

impl CountedGate {
    /// This gate, to which no link came back yet.
    pub fn new(gate: ListGate) -> Self
        ensures { result.gate ≡ gate }
    {
        CountedGate { gate, retired: 0 }
    }

    /// How many links came back.
    pub fn retired(&self) -> u32 {
        self.retired
    }
}

impl Gate for CountedGate {
    type In = ByteSource;

    type Out = ByteSink;

    ghost faults = { λ g. g.gate.plan.faults };

    ghost returned = { λ g. g.gate.returned };

    ghost port = { λ g. g.gate.port };

    ghost accepts = { λ g. Some g.gate.accepts };

    ghost accepted = { λ g. Some g.gate.accepted };

    ghost retired = { λ g. Some g.gate.retired };

    fn accept(&mut self) -> Result<(ByteSource, ByteSink, Host), Failed>
        ensures source { IfOk result (λ link. link.0.plan.faults ≡ 0) }
        ensures sink { IfOk result (λ link. link.1.plan.faults ≡ 0) }
        ensures unread { IfOk result (λ link. link.0.tape.given ≡ []) }
        ensures cause { HasCause self.old.gate.plan.faults self.new.gate.plan.faults result }
        ensures accepts { self.new.gate.accepts ≡ self.old.gate.accepts ++ (is_ok result ∷ []) }
        ensures accepted { self.new.gate.accepted
            ≡ self.old.gate.accepted ++ option_to_list (made call_seen result) }
        ensures port { self.new.gate.port ≡ self.old.gate.port }
        ensures returned { self.new.gate.returned ≡ self.old.gate.returned }
        ensures retired { self.new.gate.retired ≡ self.old.gate.retired }
    {
        self.gate.accept()
    }

    fn retire(&mut self, source: ByteSource, sink: ByteSink)
        ensures faults { self.new.gate.plan.faults ≡ self.old.gate.plan.faults }
        ensures returned { CountsReturned (source.plan.faults + sink.plan.faults) self.old.gate.returned
            self.new.gate.returned }
        ensures later { self.old.gate.returned ≤ self.new.gate.returned }
        ensures port { self.new.gate.port ≡ self.old.gate.port }
        ensures accepts { self.new.gate.accepts ≡ self.old.gate.accepts }
        ensures accepted { self.new.gate.accepted ≡ self.old.gate.accepted }
        ensures retired { self.new.gate.retired
            ≡ self.old.gate.retired ++ (link_seen (source, sink) ∷ []) }
    {
        self.retired = self.retired.saturating_add(1);
        self.gate.retire(source, sink);
    }

    fn twin(&mut self) -> Result<Self, Failed>
        ensures fresh { IfOk result (λ twin. twin.gate.plan.faults ≡ 0) }
        ensures fresh_returned { IfOk result (λ twin. twin.gate.returned ≡ 0) }
        ensures same_port { IfOk result (λ twin. twin.gate.port ≡ self.old.gate.port) }
        ensures fresh_accepts { IfOk result (λ twin. twin.gate.accepts ≡ []) }
        ensures fresh_accepted { IfOk result (λ twin. twin.gate.accepted ≡ []) }
        ensures fresh_retired { IfOk result (λ twin. twin.gate.retired ≡ []) }
        ensures cause { HasCause self.old.gate.plan.faults self.new.gate.plan.faults result }
        ensures returned { self.new.gate.returned ≡ self.old.gate.returned }
        ensures port { self.new.gate.port ≡ self.old.gate.port }
        ensures accepts { self.new.gate.accepts ≡ self.old.gate.accepts }
        ensures accepted { self.new.gate.accepted ≡ self.old.gate.accepted }
        ensures retired { self.new.gate.retired ≡ self.old.gate.retired }
    {
        Ok(Self::new(self.gate.twin()?))
    }
}
