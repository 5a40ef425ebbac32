//! What is in hand that may be run whole: a statement, or turns of a loop, that comes to no deep call.

ghost use Rattle.std.specs.Prelude.{◌≡◌, ◌||◌};
ghost use Rattle.dp_analysis.specs.Depth.{any_deep as comes_deep};
ghost use Rattle.dp_analysis.specs.Still.{is_named};
ghost use Rattle.dp_small_steps.specs.Rest.{after_of, tests_of};
ghost use Rattle.dp_step.specs.inner.Shallow.{runs_whole};

use dp_analysis::{DeepNames, any_deep, is_deep, statement_is_deep};
use dp_small_steps::{Hand, Head};

/// Whether what is in hand is a statement or turns of a loop, and may not come to a deep call.
pub(crate) fn is_run_whole<'p>(deep: &DeepNames<'p>, hand: &Hand<'p>) -> bool
    ensures { result ≡ runs_whole (is_named deep.now) hand.now }
{
    match hand {
        Hand::Run(statement) => !statement_is_deep(deep, statement),
        Hand::Turn(turns, _) => {
            !head_is_deep(deep, &turns.head) && !statement_is_deep(deep, turns.body.as_ref())
        }
        Hand::DoTurn(turns, _) => {
            !is_deep(deep, turns.test) && !statement_is_deep(deep, turns.body.as_ref())
        }
        Hand::EachTurn(turns, _, _) => !statement_is_deep(deep, turns.body.as_ref()),
        _ => false,
    }
}

/// Whether the tests of a loop, or what comes after its body, may come to a deep call.
fn head_is_deep<'p>(deep: &DeepNames<'p>, head: &Head<'p>) -> bool
    ensures { result ≡ (comes_deep (is_named deep.now) (tests_of head.now)
        || comes_deep (is_named deep.now) (after_of head.now)) }
{
    match head {
        Head::While(test) => is_deep(deep, test),
        Head::For(tests, after) => {
            any_deep(deep, tests.as_slice()) || any_deep(deep, after.as_slice())
        }
    }
}
