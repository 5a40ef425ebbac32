//! What bytes are written to.
ghost use Rattle.std.specs.Prelude.{◌≡◌, ℕ, List, OnOk};
ghost use Rattle.std.specs.declared.option.Option.{Option};
ghost use Rattle.dp_outside.specs.Causes.{HasCause};
ghost use Rattle.dp_outside.specs.Streams.{PutAppends};
ghost use Rattle.dp_outside.specs.Reports.{StaysSilent};

use crate::Failed;

/// What bytes are written to.
pub trait Sink {
    /// The bytes that it has taken so far, where it tells them.
    ghost taken: { Self → Option (List ℕ) };

    /// How often it has failed.
    ghost faults: { Self → ℕ };

    /// Takes all of `bytes`, or answers `Failed` after taking a front of them. One that holds is no fault.
    fn put(&mut self, bytes: &[u8]) -> Result<(), Failed>
        ensures taken { PutAppends (taken self.old) (taken self.new) result bytes.now }
        ensures untold { StaysSilent (taken self.old) (taken self.new) }
        ensures held { OnOk result (faults self.new ≡ faults self.old) }
        ensures cause { HasCause (faults self.old) (faults self.new) result };

    /// Ends the link in both directions. It cannot fail.
    fn finish(&mut self)
        ensures taken { taken self.new ≡ taken self.old }
        ensures faults { faults self.new ≡ faults self.old };
}
