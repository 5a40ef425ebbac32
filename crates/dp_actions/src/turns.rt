//! The turns of loops.

ghost use Rattle.std.specs.Prelude.{◌≡◌};
ghost use Rattle.dp_actions.specs.Loops.{step_after, last_holds as ends_true};

use crate::signal::Signal;
use dp_value::{Value, truthy};

/// What comes after the body of a loop.
#[derive(Drop)]
pub enum LoopStep {
    /// On with the loop.
    On,
    /// Out of it, with what the loop ends with.
    Out(Signal),
}

/// What a signal of a loop's body leads to: `break` and `continue` with a number count down.
pub fn after_body(signal: Signal) -> LoopStep
    ensures { result ≡ step_after signal }
{
    match signal {
        Signal::Next => LoopStep::On,
        Signal::Break(loops) => {
            if loops <= 1 {
                return LoopStep::Out(Signal::Next);
            }
            LoopStep::Out(Signal::Break(loops - 1))
        }
        Signal::Continue(number) => {
            if number <= 1 {
                return LoopStep::On;
            }
            LoopStep::Out(Signal::Continue(number - 1))
        }
        Signal::Return(value) => LoopStep::Out(Signal::Return(value)),
    }
}

/// Whether the last value of a test holds; true if there is none.
pub fn last_holds(values: &[Value]) -> bool
    ensures { result ≡ ends_true values.now }
{
    match values.last() {
        Some(value) => truthy(value),
        None => true,
    }
}
