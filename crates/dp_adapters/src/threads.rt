//! Jobs in the system's threads.
ghost use Rattle.std.specs.Prelude.{◌≡◌, ◌≤◌, None, OnOk};
ghost use Rattle.dp_outside.specs.Causes.{HasCause, Rose};

use dp_outside::{Failed, Faults, Hook, Spawner};
use std::sync::Wait;
use std::thread::Threads;

/// A spawner that starts each job in a thread of the system. It grants each start, so its count rises where the system
/// refuses one alone. It tells no starts.
#[derive(Drop)]
pub struct ThreadSpawner<'r, R> {
    rt: &'r R,
    size: Option<usize>,
    faults: Faults,
}

impl<'r, R> ThreadSpawner<'r, R> {
    /// The threads of this runtime, whose stacks take as many bytes as the system gives by itself.
    pub fn new(rt: &'r R) -> Self
        ensures { result.faults ≡ 0 }
    {
        ThreadSpawner {
            rt,
            size: None,
            faults: Faults::new(),
        }
    }

    /// The threads of this runtime, whose stacks take so many bytes. The system refuses each start for which it has not
    /// as many.
    pub fn with_stack_size(rt: &'r R, size: usize) -> Self
        ensures { result.faults ≡ 0 }
    {
        ThreadSpawner {
            rt,
            size: Some(size),
            faults: Faults::new(),
        }
    }

    /// How many starts were refused.
    pub fn faults(&self) -> u64
        ensures { result ≡ self.now.faults }
    {
        self.faults.count()
    }
}

impl<'r, R: Threads + Wait + Sync> Spawner for ThreadSpawner<'r, R> {
    type Runtime = R;

    ghost faults = { λ spawner. spawner.faults };

    ghost starts = { λ _. None };

    fn twin(&self) -> Self
        ensures fresh { result.faults ≡ 0 }
    {
        ThreadSpawner {
            rt: self.rt,
            size: self.size,
            faults: Faults::new(),
        }
    }

    fn start(&mut self, _hook: &Hook) -> Result<(), Failed>
        ensures granted { OnOk result (self.new.faults ≡ self.old.faults) }
        ensures cause { HasCause self.old.faults self.new.faults result }
    {
        Ok(())
    }

    fn note(&mut self, _hook: &Hook)
        ensures rose { Rose self.old.faults self.new.faults }
        ensures later { self.old.faults ≤ self.new.faults }
    {
        self.faults.raise();
    }

    fn runtime(&self, _hook: &Hook) -> Option<&R> {
        Some(self.rt)
    }

    fn stack_size(&self, _hook: &Hook) -> Option<usize> {
        self.size
    }
}
