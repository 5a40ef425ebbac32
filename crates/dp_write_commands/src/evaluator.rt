//! What evaluates the expression of an eval.

ghost use Rattle.std.specs.Prelude.{◌≡◌, IfOk, option_map};
ghost use Rattle.dp_meaning.specs.Writes.{evaluated, evaluation_setting};

use dp_bytes::Memory;
use dp_state::State;
use dp_tree::{Bundle, Expression};
use dp_value::Value;
use std::alloc::Global;

/// What evaluates expressions at a moment.
pub trait Evaluator {
    /// The value of an expression in the top frame of a state, where it holds, and the state that its evaluation
    /// leaves. Where it does not hold nothing is said of the state that is handed out.
    fn evaluation(
        alloc: Global,
        bundle: &Bundle,
        e: &Expression,
        state: &State,
    ) -> Result<(Option<Value>, State), Memory>
        ensures { IfOk result (λ end. evaluated (evaluation_setting bundle.now) e.now state.now
            ≡ option_map (λ v. (v, end.1)) end.0) };
}
