//! What is not there: no network and no threads.
ghost use Rattle.std.specs.Prelude.{◌≡◌, ◌≤◌, None, IsErr, OnOk};
ghost use Rattle.dp_outside.specs.Causes.{HasCause, Rose};
ghost use Rattle.dp_outside.specs.Fakes.{one_more};
ghost use Rattle.dp_outside.specs.Links.{CountsReturned};

use crate::jobs::Hook;
use crate::{Dialer, Failed, Faults, Gate, Host, Net, Spawner, SureByteSink, SureByteSource};
use std::marker::{Model, PhantomData};
use std::sync::Wait;
use std::thread::Threads;

/// No network: each call that can fail does so, and its count of faults rises. Contracts see that count, and how often
/// a gate came back that had failed.
#[derive(Debug, Drop)]
pub struct NoNet {
    faults: Faults,
    returned: Faults,
}

impl Model for NoNet {
    ghost use Rattle.std.specs.Prelude.{ℕ};

    ghost Value = { ℕ × ℕ };

    ghost view = { λ net. (net.faults, net.returned) };
}

impl NoNet {
    /// A network that is not there. No call has failed yet.
    pub fn new() -> Self
        ensures { result ≡ (0, 0) }
    {
        NoNet {
            faults: Faults::new(),
            returned: Faults::new(),
        }
    }
}

impl Dialer for NoNet {
    type In = SureByteSource;

    type Out = SureByteSink;

    ghost faults = { λ net. net.0 };

    ghost returned = { λ net. net.1 };

    ghost dials = { λ _. None };

    ghost retired = { λ _. None };

    ghost asked_gates = { λ _. None };

    ghost shut_doors = { λ _. None };

    fn dial(&mut self, _host: &Host, _port: u16) -> Result<(SureByteSource, SureByteSink), Failed>
        ensures cause { HasCause self.old.0 self.new.0 result }
        ensures returned { self.new.1 ≡ self.old.1 }
        ensures absent { IsErr result }
        ensures counted { self.new.0 ≡ one_more self.old.0 }
    {
        self.faults.raise();
        Err(Failed)
    }

    fn retire(&mut self, _source: SureByteSource, _sink: SureByteSink)
        ensures same { self.new ≡ self.old }
    {}

    fn twin(&mut self) -> Result<Self, Failed>
        ensures cause { HasCause self.old.0 self.new.0 result }
        ensures returned { self.new.1 ≡ self.old.1 }
        ensures absent { IsErr result }
        ensures counted { self.new.0 ≡ one_more self.old.0 }
    {
        self.faults.raise();
        Err(Failed)
    }
}

impl Net for NoNet {
    type Door = NoGate;

    fn gate(&mut self, _port: u16) -> Result<NoGate, Failed>
        ensures cause { HasCause self.old.0 self.new.0 result }
        ensures returned { self.new.1 ≡ self.old.1 }
        ensures absent { IsErr result }
        ensures counted { self.new.0 ≡ one_more self.old.0 }
    {
        self.faults.raise();
        Err(Failed)
    }

    fn shut(&mut self, door: NoGate)
        ensures faults { self.new.0 ≡ self.old.0 }
        ensures returned { CountsReturned door self.old.1 self.new.1 }
        ensures later { self.old.1 ≤ self.new.1 }
    {
        if door.faults.count() != 0 {
            self.returned.raise();
        }
    }
}

/// The gate of no network: it gives no link. Contracts see its count of faults.
#[derive(Debug, Drop)]
pub struct NoGate {
    faults: Faults,
}

impl Model for NoGate {
    ghost use Rattle.std.specs.Prelude.{ℕ};

    ghost Value = { ℕ };

    ghost view = { λ gate. gate.faults };
}

impl NoGate {
    /// A gate that gives no link. No call has failed yet.
    pub fn new() -> Self
        ensures { result ≡ 0 }
    {
        NoGate {
            faults: Faults::new(),
        }
    }
}

impl Gate for NoGate {
    type In = SureByteSource;

    type Out = SureByteSink;

    ghost faults = { λ gate. gate };

    ghost returned = { λ _. 0 };

    // It is at no port: no gate of it was ever given.
    ghost port = { λ _. 0 };

    ghost accepts = { λ _. None };

    ghost accepted = { λ _. None };

    ghost retired = { λ _. None };

    fn accept(&mut self) -> Result<(SureByteSource, SureByteSink, Host), Failed>
        ensures cause { HasCause self.old self.new result }
        ensures absent { IsErr result }
        ensures counted { self.new ≡ one_more self.old }
    {
        self.faults.raise();
        Err(Failed)
    }

    fn retire(&mut self, _source: SureByteSource, _sink: SureByteSink)
        ensures faults { self.new ≡ self.old }
    {}

    fn twin(&mut self) -> Result<Self, Failed>
        ensures cause { HasCause self.old self.new result }
        ensures absent { IsErr result }
        ensures counted { self.new ≡ one_more self.old }
    {
        self.faults.raise();
        Err(Failed)
    }
}

/// No threads: each start is refused, and its count of faults rises. Contracts see that count. `R` is the runtime
/// that it has none of.
#[derive(Drop)]
pub struct NoSpawner<R> {
    faults: Faults,
    runtime: PhantomData<R>,
}

impl<R> Model for NoSpawner<R> {
    ghost use Rattle.std.specs.Prelude.{ℕ};

    ghost Value = { ℕ };

    ghost view = { λ spawner. spawner.faults };
}

impl<R> NoSpawner<R> {
    /// A spawner without threads. No start was refused yet.
    pub fn new() -> Self
        ensures { result ≡ 0 }
    {
        NoSpawner {
            faults: Faults::new(),
            runtime: PhantomData,
        }
    }
}

impl<R: Threads + Wait + Sync + Send> Spawner for NoSpawner<R> {
    type Runtime = R;

    ghost faults = { λ spawner. spawner };

    ghost starts = { λ _. None };

    fn twin(&self) -> Self
        ensures fresh { result ≡ 0 }
    {
        NoSpawner::new()
    }

    fn start(&mut self, _hook: &Hook) -> Result<(), Failed>
        ensures granted { OnOk result (self.new ≡ self.old) }
        ensures cause { HasCause self.old self.new result }
        ensures absent { IsErr result }
        ensures counted { self.new ≡ one_more self.old }
    {
        self.faults.raise();
        Err(Failed)
    }

    fn note(&mut self, _hook: &Hook)
        ensures rose { Rose self.old self.new }
        ensures later { self.old ≤ self.new }
        ensures counted { self.new ≡ one_more self.old }
    {
        self.faults.raise();
    }

    fn runtime(&self, _hook: &Hook) -> Option<&R> {
        None
    }

    fn stack_size(&self, _hook: &Hook) -> Option<usize> {
        None
    }
}
