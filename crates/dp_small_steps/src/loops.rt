//! The turns of loops, and what waits for a signal.

ghost use Rattle.std.specs.Prelude.{◌≡◌, drop, length};
ghost use Rattle.dp_state.specs.declared.state.State.{State as AnyState};
ghost use Rattle.dp_actions.specs.Expressions.{evaluations};
ghost use Rattle.dp_actions.specs.Loops.{entries, last_holds as ends_true, after_body as over};
ghost use Rattle.dp_actions.specs.Run.{and_then};
ghost use Rattle.dp_actions.specs.Setting.{Setting};
ghost use Rattle.dp_small_steps.specs.Rest.{each_turn as each_turn_of};
ghost use Rattle.dp_small_steps.specs.Rest.{do_decided, do_rest, do_test, do_turns_of, each_from, each_rest};
ghost use Rattle.dp_small_steps.specs.Rest.{next_rest, signal_rest, small_rest, turn_rest};
ghost use Rattle.dp_small_steps.specs.Rest.{tests_of, turns_decided, turns_next, turns_of, turns_tested};
ghost use Rattle.dp_small_steps.specs.Parts.{Follows, to_signal};

use crate::next::{alone, evaluated, placed, signal, unplaced, values_first};
use crate::work::{
    AfterValue, AfterValues, DoTurns, EachTurns, ForSignal, Given, Hand, Head, Next, Small, Turns,
    Work,
};
use dp_actions::{LoopStep, Signal, after_body, last_holds};
use dp_bytes::Items;
use dp_state::Outcome;
use dp_value::Value;
use std::alloc::Global;

/// Turns of a `while` or a `for`, at most so many.
pub(crate) fn turn<'p>(alloc: Global, turns: Turns<'p>, left: u64) -> Small<'p>
    ensures { (setting : Setting) (k : Follows) (s : AnyState)
        → small_rest setting result k s ≡ and_then (turns_of setting turns.entry left s) (to_signal k) }
{
    if left == 0 {
        unplaced(alone(Hand::Over(Outcome::Bound)))
    } else {
        placed(turns.line, tests_first(alloc, turns, left - 1))
    }
}

/// The tests of a turn, after which at most so many are left.
fn tests_first<'p>(alloc: Global, turns: Turns<'p>, left: u64) -> Next<'p>
    ensures { (setting : Setting) (k : Follows) (s : AnyState)
        → next_rest setting result k s ≡ and_then (evaluations (tests_of turns.entry.head) setting s)
        (λ values t. and_then (turns_tested setting turns.entry left values t) (to_signal k)) }
{
    match turns.head {
        Head::While(test) => evaluated(test, AfterValue::Test(turns, left)),
        Head::For(tests, _) => values_first(
            alloc,
            tests,
            Work::AfterValues(AfterValues::Tests(turns, left)),
        ),
    }
}

/// A turn whose tests are evaluated.
pub(crate) fn tested<'p>(turns: Turns<'p>, left: u64, holds: bool) -> Next<'p>
    ensures { (setting : Setting) (k : Follows) (s : AnyState)
        → next_rest setting result k s ≡ and_then (turns_decided setting turns.entry left holds s) (to_signal k) }
{
    if holds {
        Next {
            hand: Hand::Run(turns.body.as_ref()),
            waits: Some(Work::ForSignal(ForSignal::Body(turns, left, false))),
        }
    } else {
        signal(Signal::Next)
    }
}

/// Whether the last of the values of a test holds; without one there is no end.
pub(crate) fn test_holds(values: Items<Value>) -> bool
    ensures { result ≡ ends_true values }
{
    let holds = last_holds(values.as_slice());
    drop(values);
    holds
}

/// Turns of a `do`, at most so many.
pub(crate) fn do_turn<'p>(turns: DoTurns<'p>, left: u64) -> Next<'p>
    ensures { (setting : Setting) (k : Follows) (s : AnyState)
        → next_rest setting result k s ≡ and_then (do_turns_of setting turns.entry left s) (to_signal k) }
{
    if left == 0 {
        alone(Hand::Over(Outcome::Bound))
    } else {
        Next {
            hand: Hand::Run(turns.body.as_ref()),
            waits: Some(Work::ForSignal(ForSignal::DoBody(turns, left - 1, false))),
        }
    }
}

/// A turn of a `do` whose test is evaluated.
pub(crate) fn do_tested<'p>(turns: DoTurns<'p>, left: u64, holds: bool) -> Next<'p>
    ensures { (setting : Setting) (k : Follows) (s : AnyState)
        → next_rest setting result k s ≡ and_then (do_decided setting turns.entry left holds s) (to_signal k) }
{
    if holds {
        alone(Hand::DoTurn(turns, left))
    } else {
        signal(Signal::Next)
    }
}

/// The turns of a `foreach` from the entry at a position on.
pub(crate) fn each_turn<'p>(turns: EachTurns<'p>, subject: Value, at: usize) -> Small<'p>
    ensures { (setting : Setting) (k : Follows) (s : AnyState)
        → small_rest setting result k s ≡ and_then (each_from setting turns.entry subject at s) (to_signal k) }
{
    if at >= entry_count(&subject) {
        drop(subject);
        unplaced(signal(Signal::Next))
    } else {
        placed(turns.line, due_entry(turns, subject, at, Signal::Next))
    }
}

/// The turn of the entry at a position, whose moment has come: that is the machine's, so it stays.
fn due_entry<'p>(turns: EachTurns<'p>, subject: Value, at: usize, given: Signal) -> Next<'p>
    ensures { (setting : Setting) (k : Follows) (s : AnyState) → next_rest setting result k s
        ≡ and_then (each_turn_of setting turns.entry (drop at (entries subject)) s) (to_signal k) }
{
    Next {
        hand: Hand::Give(Given::Signal(given)),
        waits: Some(Work::ForSignal(ForSignal::EachBody(turns, subject, at, true))),
    }
}

/// How many entries a `foreach` walks.
pub fn entry_count(subject: &Value) -> usize
    ensures { result ≡ length (entries subject.now) }
{
    match subject {
        Value::Array(array) => array.len(),
        _ => 0,
    }
}

/// A signal is given to a part that waits for one.
pub(crate) fn receive_signal<'p>(alloc: Global, work: ForSignal<'p>, given: Signal) -> Small<'p>
    ensures { (setting : Setting) (k : Follows) (s : AnyState)
        → small_rest setting result k s ≡ signal_rest setting work.entry given k s }
{
    match work {
        ForSignal::Rest(rest, at) => match given {
            Signal::Next => unplaced(alone(Hand::Each(rest, at))),
            _ => unplaced(signal(given)),
        },
        ForSignal::Body(turns, left, due) => turn_on(alloc, turns, left, due, given),
        ForSignal::DoBody(turns, left, due) => do_on(turns, left, due, given),
        ForSignal::EachBody(turns, subject, at, due) => each_on(turns, subject, at, due, given),
    }
}

/// A turn whose moment has come, or whose body is over.
fn turn_on<'p>(alloc: Global, turns: Turns<'p>, left: u64, due: bool, given: Signal) -> Small<'p>
    ensures { (setting : Setting) (k : Follows) (s : AnyState)
        → small_rest setting result k s ≡ and_then (turn_rest setting turns.entry left due given s) (to_signal k) }
{
    if due {
        unplaced(tests_first(alloc, turns, left))
    } else {
        body_over(alloc, turns, left, given)
    }
}

/// The body of a turn is over.
fn body_over<'p>(alloc: Global, turns: Turns<'p>, left: u64, given: Signal) -> Small<'p>
    ensures { (setting : Setting) (k : Follows) (s : AnyState)
        → small_rest setting result k s ≡ and_then (over given (turns_next setting turns.entry left) s) (to_signal k) }
{
    match after_body(given) {
        LoopStep::On => unplaced(turns_on(alloc, turns, left)),
        LoopStep::Out(out) => unplaced(signal(out)),
    }
}

/// What comes between two turns, and then at most so many.
fn turns_on<'p>(alloc: Global, turns: Turns<'p>, left: u64) -> Next<'p>
    ensures { (setting : Setting) (k : Follows) (s : AnyState)
        → next_rest setting result k s ≡ and_then (turns_next setting turns.entry left s) (to_signal k) }
{
    match turns.head {
        Head::While(_) => alone(Hand::Turn(turns, left)),
        Head::For(_, after) => values_first(
            alloc,
            after,
            Work::AfterValues(AfterValues::Turns(turns, left)),
        ),
    }
}

/// A turn of a `do` whose test's moment has come, or whose body is over.
fn do_on<'p>(turns: DoTurns<'p>, left: u64, due: bool, given: Signal) -> Small<'p>
    ensures { (setting : Setting) (k : Follows) (s : AnyState)
        → small_rest setting result k s ≡ and_then (do_rest setting turns.entry left due given s) (to_signal k) }
{
    if due {
        unplaced(evaluated(turns.test, AfterValue::DoTest(turns, left)))
    } else {
        do_over(turns, left, given)
    }
}

/// The body of a turn of a `do` is over.
fn do_over<'p>(turns: DoTurns<'p>, left: u64, given: Signal) -> Small<'p>
    ensures { (setting : Setting) (k : Follows) (s : AnyState)
        → small_rest setting result k s ≡ and_then (over given (do_test setting turns.entry left) s) (to_signal k) }
{
    match after_body(given) {
        LoopStep::On => placed(
            turns.line,
            evaluated(turns.test, AfterValue::DoTest(turns, left)),
        ),
        LoopStep::Out(out) => unplaced(signal(out)),
    }
}

/// A turn of a `foreach` whose moment has come, or whose body is over.
fn each_on<'p>(
    turns: EachTurns<'p>,
    subject: Value,
    at: usize,
    due: bool,
    given: Signal,
) -> Small<'p>
    ensures { (setting : Setting) (k : Follows) (s : AnyState)
        → small_rest setting result k s ≡ and_then (each_rest setting turns.entry subject at due given s)
        (to_signal k) }
{
    if due {
        unplaced(due_entry(turns, subject, at, given))
    } else {
        each_over(turns, subject, at, given)
    }
}

/// The body of a turn of a `foreach` is over.
fn each_over<'p>(turns: EachTurns<'p>, subject: Value, at: usize, given: Signal) -> Small<'p>
    ensures { (setting : Setting) (k : Follows) (s : AnyState)
        → small_rest setting result k s ≡ and_then (over given (each_from setting turns.entry subject at) s)
        (to_signal k) }
{
    match after_body(given) {
        LoopStep::On => unplaced(alone(Hand::EachTurn(turns, subject, at))),
        LoopStep::Out(out) => {
            drop(subject);
            unplaced(signal(out))
        }
    }
}
