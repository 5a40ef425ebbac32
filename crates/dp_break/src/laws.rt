//! What holds of all breakpoints and all moments.

ghost use Rattle.std.specs.Prelude.{◌≡◌, ◌+◌, Bool, List, [], ◌∷◌, ℕ, false, drop, Option};
ghost use Rattle.std.specs.List.{list_any, position_from};
ghost use Rattle.std.specs.Option.{option_map_or};
ghost use Rattle.dp_break.specs.declared.breakpoint.Breakpoint.{Breakpoint};
ghost use Rattle.dp_break.specs.Hits.{hits, is_true_in};
ghost use Rattle.dp_break.specs.StopRule.{Moments, found, held_after, one_stops, passed, stop_above};
ghost use Rattle.dp_tree.specs.declared.bundle.Bundle.{Bundle};
ghost use Rattle.dp_meaning.specs.Pure.{IsValueIn};
ghost use Rattle.dp_actions.specs.Values.{holds};
ghost use Rattle.dp_state.specs.declared.moments.Moment.{Moment};
ghost use Rattle.dp_state.specs.declared.state.State.{State};
ghost use Rattle.dp_tree.specs.declared.tree.Expression.{Expression};
ghost use Rattle.dp_value.specs.declared.value.Value.{Value};

/// Going on one moment after another finds the stop that the whole list has, and leaves the breakpoints with the hits
/// that they have in the list up to there.
pub fn counting_by_moments()
    ensures stop { (mode : Moment → Bool) (bundle : Bundle) (held : List Breakpoint) (n : ℕ) (moments : Moments)
        → (found mode bundle held n (drop n moments)).0 ≡ stop_above mode bundle held n moments }
    ensures held { (mode : Moment → Bool) (bundle : Bundle) (held : List Breakpoint) (n : ℕ) (moments : Moments)
        → (found mode bundle held n (drop n moments)).1
        ≡ held_after bundle (passed n (stop_above mode bundle held n moments) moments) held }
{}

/// If no breakpoint is held, only the mode stops.
pub fn stops_without_breakpoints()
    ensures { (mode : Moment → Bool) (bundle : Bundle) (n : ℕ) (moments : Moments)
        → stop_above mode bundle [] n moments ≡ position_from (λ at. mode at.0) (n + 1) (drop n moments) }
{}

/// A moment at which no breakpoint that is held hits leaves them as they are, and none stops there.
pub fn nothing_without_hits()
    ensures held { (bundle : Bundle) (held : List Breakpoint) (at : Moment × State)
        → list_any (hits bundle at) held ≡ false → held_after bundle (at ∷ []) held ≡ held }
    ensures stop { (bundle : Bundle) (held : List Breakpoint) (at : Moment × State)
        → list_any (hits bundle at) held ≡ false → one_stops bundle held [] at ≡ false }
{}

/// An expression that changes nothing is true in a state exactly where its value there holds.
pub fn true_by_value()
    ensures { (bundle : Bundle) (e : Expression) (state : State) (value : Option Value)
        → IsValueIn bundle e state value → is_true_in bundle e state ≡ option_map_or holds value false }
{}
