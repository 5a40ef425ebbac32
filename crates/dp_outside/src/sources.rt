//! What bytes are read from.
ghost use Rattle.std.specs.Prelude.{◌≡◌, ℕ, ◌≤◌, List, length, IfOk, IsSome, OnOk};
ghost use Rattle.std.specs.Io.KnownBytes.{ReadConsumes};
ghost use Rattle.std.specs.declared.option.Option.{Option};
ghost use Rattle.dp_outside.specs.Causes.{HasCause};
ghost use Rattle.dp_outside.specs.Streams.{TakeGives};
ghost use Rattle.dp_outside.specs.Reports.{StaysSilent};

use crate::Failed;

/// What bytes are read from.
pub trait Source {
    /// The bytes that it still gives, where it tells them.
    ghost left: { Self → Option (List ℕ) };

    /// The bytes that it has given so far, where it tells them.
    ghost given: { Self → Option (List ℕ) };

    /// How often it has failed.
    ghost faults: { Self → ℕ };

    /// Puts the next bytes at the front of `buf` and answers their number. It may wait.
    ///
    /// With a `buf` that is not empty, 0 means the end of the input. After `Failed` nothing was taken. One that
    /// holds is no fault.
    fn take(&mut self, buf: &mut [u8]) -> Result<usize, Failed>
        ensures bound { IfOk result (λ count. count ≤ length buf.new) }
        ensures left { ReadConsumes (left self.old) (left self.new) result buf.new }
        ensures given { TakeGives (given self.old) (given self.new) result buf.new }
        ensures untold_left { StaysSilent (left self.old) (left self.new) }
        ensures untold_given { StaysSilent (given self.old) (given self.new) }
        ensures held { OnOk result (faults self.new ≡ faults self.old) }
        ensures cause { HasCause (faults self.old) (faults self.new) result };

    /// Where it tells what it still gives, it tells what it has given too.
    ghost tells_both: { (source : Self) → IsSome (left source) → IsSome (given source) };
}
