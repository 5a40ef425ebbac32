//! What holds of all stops.

ghost use Rattle.std.specs.Prelude.{◌≡◌, ◌+◌, ◌≤◌, Bool, List, Some, ℕ, slice_get};
ghost use Rattle.dp_break.specs.declared.breakpoint.Breakpoint.{Breakpoint};
ghost use Rattle.dp_break.specs.StopRule.{Moments, stop_above};
ghost use Rattle.dp_state.specs.declared.moments.Moment.{Moment};
ghost use Rattle.dp_state.specs.declared.state.State.{State};
ghost use Rattle.dp_tree.specs.declared.bundle.Bundle.{Bundle};

/// A stop is a moment past the one from which the program goes on; moments count from 1.
pub fn stops_are_moments()
    ensures { (mode : Moment → Bool) (bundle : Bundle) (held : List Breakpoint) (n : ℕ) (moments : Moments) (stop : ℕ)
        → stop_above mode bundle held n moments ≡ Some stop
        → (k : ℕ) × (at : Moment × State) × (stop ≡ k + 1) × (n ≤ k) × (slice_get moments k ≡ Some at) }
{}
