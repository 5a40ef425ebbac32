//! Which calls of an object in memory fail.
ghost use Rattle.std.specs.Prelude.{◌≡◌, ◌≤◌, is_err};
ghost use Rattle.dp_outside.specs.Causes.{HasCause, Rose};
ghost use Rattle.dp_outside.specs.Fakes.{after_call, first_plan, is_due, one_more};

use crate::{Failed, Faults};
use std::marker::Model;

/// Which calls of an object in memory fail, by their numbers. Contracts see the numbers, the calls and the faults.
#[derive(Debug, Drop)]
pub struct FailPlan {
    fails: Vec<u64>,
    calls: u64,
    faults: Faults,
}

impl Model for FailPlan {
    ghost use Rattle.dp_outside.specs.Fakes.{Plan};

    ghost Value = { Plan };

    ghost view = { λ p. record { fails = p.fails.items; calls = p.calls; faults = p.faults } };
}

impl FailPlan {
    /// A plan with no call yet. The calls whose numbers, from 1, stand in `fails` are those that fail.
    pub fn new(fails: Vec<u64>) -> Self
        ensures { result ≡ first_plan fails.items }
    {
        FailPlan {
            fails,
            calls: 0,
            faults: Faults::new(),
        }
    }

    /// Counts a call, and a fault where the call is one of those that fail.
    pub fn call(&mut self) -> Result<(), Failed>
        ensures due { is_err result ≡ is_due self.old }
        ensures after { self.new ≡ after_call self.old (is_err result) }
        ensures cause { HasCause self.old.faults self.new.faults result }
    {
        let number = self.calls.saturating_add(1);
        self.calls = number;
        if self.fails.contains(&number) {
            self.faults.raise();
            return Err(Failed);
        }
        Ok(())
    }

    /// The number of faults so far.
    pub fn faults(&self) -> u64
        ensures { result ≡ self.now.faults }
    {
        self.faults.count()
    }

    /// Counts a fault of the last call.
    pub fn fault(&mut self)
        ensures fails { self.new.fails ≡ self.old.fails }
        ensures calls { self.new.calls ≡ self.old.calls }
        ensures faults { self.new.faults ≡ one_more self.old.faults }
        ensures rose { Rose self.old.faults self.new.faults }
        ensures later { self.old.faults ≤ self.new.faults }
    {
        self.faults.raise();
    }
}
