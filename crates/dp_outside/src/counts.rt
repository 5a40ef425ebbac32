//! Counts of faults.
ghost use Rattle.std.specs.Prelude.{◌≡◌, ◌≤◌};
ghost use Rattle.dp_outside.specs.Causes.{Rose};
ghost use Rattle.dp_outside.specs.Fakes.{one_more};

use std::marker::Model;

/// A count of faults. It never falls, and stands still at the greatest number of 64 bits.
#[derive(Debug, Drop)]
pub struct Faults {
    count: u64,
}

impl Model for Faults {
    ghost use Rattle.std.specs.Prelude.{ℕ};

    ghost Value = { ℕ };

    ghost view = { λ f. f.count };
}

impl Faults {
    /// A count of 0. Takes no memory.
    pub fn new() -> Self
        ensures { result ≡ 0 }
    {
        Faults { count: 0 }
    }

    /// The number of faults so far.
    pub fn count(&self) -> u64
        ensures { result ≡ self.now }
    {
        self.count
    }

    /// Counts one more fault.
    pub fn raise(&mut self)
        ensures exact { self.new ≡ one_more self.old }
        ensures rose { Rose self.old self.new }
        ensures later { self.old ≤ self.new }
    {
        self.count = self.count.saturating_add(1);
    }
}
