//! What is in hand is done as far as one small step goes.

ghost use Rattle.dp_actions.specs.Setting.{Setting};
ghost use Rattle.dp_actions.specs.Run.{Run, and_then};
ghost use Rattle.dp_actions.specs.Expressions.{evaluation};
ghost use Rattle.dp_actions.specs.declared.signal.Signal.{Signal as AnySignal};
ghost use Rattle.dp_state.specs.declared.state.State.{State as AnyState};
ghost use Rattle.std.specs.Prelude.{◌≡◌};
ghost use Rattle.dp_small_steps.specs.Leads.{Goes, Leads};
ghost use Rattle.dp_small_steps.specs.Parts.{Follows, to_value};
ghost use Rattle.dp_small_steps.specs.Rest.{hand_rest, next_rest};

use crate::after::global;
use crate::calls::begin_call;
use crate::expressions::{begin_expression, find};
use crate::lists::{isset, items, links, under, values};
use crate::loops::{do_turn, each_turn, turn};
use crate::next::{alone, unplaced};
use crate::statements::{constants, unset};
use crate::work::{Hand, Next, Small, Work};
use dp_actions::Halt;
use dp_state::State;
use dp_tree::{Bundle, Expression};
use std::alloc::Global;

/// What is in hand is done as far as one small step goes. What a machine does where it stands, or with the frames of
/// its state, stays in hand: a statement and the parts of an `if`, what is given, calls and inclusions, and their ends.
///
/// An error is the end of the program, or out of memory.
pub fn first_of<'p>(
    alloc: Global,
    bundle: &'p Bundle,
    hand: Hand<'p>,
    state: &mut State,
) -> Result<Small<'p>, Halt>
    ensures { (setting : Setting) → setting.bundle ≡ bundle.now
        → Goes setting (λ k. hand_rest setting hand.entry k state.old) result state.new }
{
    match hand {
        Hand::Evaluate(e) => moved(evaluate(alloc, bundle, e, state)),
        Hand::Find(e) => Ok(unplaced(find(e))),
        Hand::Values(before, rest, at) => Ok(unplaced(values(before, rest, at))),
        Hand::Items(array, rest, at) => Ok(unplaced(items(array, rest, at))),
        Hand::Links(left, rest, at) => Ok(unplaced(links(left, rest, at))),
        Hand::Under(how, value, rest, at) => moved(under(how, value, rest, at)),
        Hand::Isset(rest) => Ok(unplaced(isset(alloc, rest))),
        hand => first_of_statement(alloc, hand, state),
    }
}

/// An expression.
fn evaluate<'p>(
    alloc: Global,
    bundle: &'p Bundle,
    e: &'p Expression,
    state: &State,
) -> Result<Next<'p>, Halt>
    ensures { (setting : Setting) → setting.bundle ≡ bundle.now
        → Leads (next_rest setting) (λ k. and_then (evaluation e.now setting state.now) (to_value k)) result state.now }
{
    match e {
        Expression::Call(name, arguments) => begin_call(alloc, bundle, name, arguments, state),
        Expression::Include(how, file) => Ok(Next {
            hand: Hand::Evaluate(file.as_ref()),
            waits: Some(Work::Include(*how)),
        }),
        e => begin_expression(alloc, e, state),
    }
}

/// A part of a statement, turns of a loop, or an end.
fn first_of_statement<'p>(
    alloc: Global,
    hand: Hand<'p>,
    state: &mut State,
) -> Result<Small<'p>, Halt>
    ensures { (setting : Setting) → Goes setting (λ k. hand_rest setting hand.entry k state.old) result state.new }
{
    match hand {
        Hand::Global(names) => moved(global(names, state)),
        Hand::Unset(rest) => Ok(unplaced(unset(alloc, rest))),
        Hand::Constants(all, at) => Ok(unplaced(constants(all, at))),
        Hand::Turn(turns, left) => Ok(turn(alloc, turns, left)),
        Hand::DoTurn(turns, left) => Ok(unplaced(do_turn(turns, left))),
        Hand::EachTurn(turns, subject, at) => Ok(each_turn(turns, subject, at)),
        Hand::Over(outcome) => Err(Halt::Finished(outcome)),
        Hand::Failed => Err(Halt::Memory),
        hand => Ok(unplaced(alone(hand))),
    }
}

/// A step without a moment.
pub(crate) fn moved<'p>(next: Result<Next<'p>, Halt>) -> Result<Small<'p>, Halt>
    ensures { (setting : Setting) (part : Follows → Run AnySignal) (t : AnyState)
        → Leads (next_rest setting) part next.entry t
        → Goes setting part result t }
{
    match next {
        Ok(next) => Ok(unplaced(next)),
        Err(why) => Err(why),
    }
}
