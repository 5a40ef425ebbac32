//! Tests of statements and of loops, which are found at once where no moment can come in them.

ghost use Rattle.dp_actions.specs.Expressions.{evaluation, evaluations};
ghost use Rattle.dp_actions.specs.Loops.{last_holds};
ghost use Rattle.dp_actions.specs.Run.{Done, and_then};
ghost use Rattle.dp_actions.specs.Values.{holds as value_holds};
ghost use Rattle.dp_small_steps.specs.Rest.{tests_of};
ghost use Rattle.dp_step.specs.inner.Tests.{Finds, setting_by};

use dp_actions::{Halt, holds, truth};
use dp_analysis::{all_momentless, is_momentless};
use dp_meaning::Whole;
use dp_small_steps::Head;
use dp_state::State;
use dp_tree::Expression;

/// Whether a test holds. `None` says nothing, and then nothing is done: a moment may come in it.
pub(crate) fn test_holds(
    whole: Whole<'_>,
    test: &Expression,
    state: &mut State,
) -> Result<Option<bool>, Halt>
    ensures { Finds (and_then (evaluation test.now (setting_by whole.entry) state.old)
        (λ v t. Done (value_holds v) t)) result state.old state.new }
{
    if let Some(held) = truth(test, state) {
        return Ok(Some(held));
    }
    if !is_momentless(test) {
        return Ok(None);
    }
    match whole.value(test, state) {
        Ok(value) => Ok(Some(holds(value))),
        Err(why) => Err(why),
    }
}

/// Whether the tests of a turn of a `while` or a `for` hold. `None` says nothing, as above.
pub(crate) fn head_holds(
    whole: Whole<'_>,
    head: &Head<'_>,
    state: &mut State,
) -> Result<Option<bool>, Halt>
    ensures { Finds (and_then (evaluations (tests_of head.now) (setting_by whole.entry) state.old)
        (λ values t. Done (last_holds values) t)) result state.old state.new }
{
    match head {
        Head::While(test) => test_holds(whole, test, state),
        Head::For(tests, _) => all_hold(whole, tests.as_slice(), state),
    }
}

/// Whether the last of some tests holds. `None` says nothing, as above.
fn all_hold(whole: Whole<'_>, tests: &[Expression], state: &mut State) -> Result<Option<bool>, Halt>
    ensures { Finds (and_then (evaluations tests.now (setting_by whole.entry) state.old)
        (λ values t. Done (last_holds values) t)) result state.old state.new }
{
    if let [test] = tests {
        return test_holds(whole, test, state);
    }
    if !all_momentless(tests) {
        return Ok(None);
    }
    match whole.test(tests, state) {
        Ok(held) => Ok(Some(held)),
        Err(why) => Err(why),
    }
}
