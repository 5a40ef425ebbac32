//! What a statement that waited does with what it is given.

ghost use Rattle.std.specs.Prelude.{◌≡◌, IsOk, None, Some, slice_get};
ghost use Rattle.dp_state.specs.Places.{keys_of_indices, unset as without};
ghost use Rattle.dp_value.specs.declared.key.Key.{Key as EntryKey};
ghost use Rattle.dp_value.specs.Data.{Data};
ghost use Rattle.dp_actions.specs.AtOnce.{AtOnce};
ghost use Rattle.dp_actions.specs.Loops.{bind as bind_run, entries};
ghost use Rattle.dp_actions.specs.Run.{Done, and_then, taken};
ghost use Rattle.dp_actions.specs.Setting.{Setting};
ghost use Rattle.dp_actions.specs.Effects.{with_globals};
ghost use Rattle.dp_small_steps.specs.Rest.{after_rest, next_rest, next_to, unset_after, after_values_rest};
ghost use Rattle.dp_small_steps.specs.declared.work.AfterValue.TheVariants as any_after;
ghost use Rattle.dp_small_steps.specs.Leads.{Leads};

use crate::loops::{do_tested, test_holds, tested};
use crate::next::{alone, signal};
use crate::statements::branch;
use crate::work::{AfterValue, AfterValues, Hand, Next};
use dp_actions::{
    Halt, Signal, bind_all, bind_entry, define_constant, exit_value, holds, print_value,
    unset_place,
};
use dp_bytes::{Bytes, Items};
use dp_state::State;
use dp_tree::{Binding, Definition, Expression, Place};
use dp_value::Value;
use std::alloc::Global;

/// A value is given to a statement that waits for one.
pub(crate) fn receive_after<'p>(
    alloc: Global,
    work: AfterValue<'p>,
    value: Value,
    state: &mut State,
) -> Result<Next<'p>, Halt>
    ensures { (setting : Setting)
        → Leads (next_rest setting) (λ k. after_rest setting work.entry value k state.old) result state.new }
{
    match work {
        AfterValue::Discard => {
            drop(value);
            Ok(signal(Signal::Next))
        }
        AfterValue::Echoed(rest, at) => echoed(alloc, value, rest, at, state),
        AfterValue::Defined(name, rest, at) => defined(name, value, rest, at, state),
        AfterValue::Branch(arms, at, otherwise) => { Ok(branch(arms, at, otherwise, holds(value))) }
        AfterValue::ReturnIt => Ok(signal(Signal::Return(value))),
        AfterValue::ExitWith => exit_with(value, state),
        AfterValue::Test(turns, left) => Ok(tested(turns, left, holds(value))),
        AfterValue::DoTest(turns, left) => Ok(do_tested(turns, left, holds(value))),
        AfterValue::Subject(turns) => Ok(alone(Hand::EachTurn(turns, value, 0))),
    }
}

/// Values are given to a statement or a call that waits for them.
pub(crate) fn receive_after_values<'p>(
    alloc: Global,
    work: AfterValues<'p>,
    values: Items<Value>,
    state: &mut State,
) -> Result<Next<'p>, Halt>
    ensures { (setting : Setting)
        → Leads (next_rest setting) (λ k. after_values_rest setting work.entry values k state.old) result state.new }
{
    match work {
        AfterValues::Call(file, function) => Ok(alone(Hand::Call(file, function, values))),
        AfterValues::Unset(name, rest) => unset_next(alloc, name, values, rest, state),
        AfterValues::Turns(turns, left) => {
            drop(values);
            Ok(alone(Hand::Turn(turns, left)))
        }
        AfterValues::Tests(turns, left) => Ok(tested(turns, left, test_holds(values))),
    }
}

/// An operand of an `echo` is written.
fn echoed<'p>(
    alloc: Global,
    value: Value,
    rest: &'p Items<Expression>,
    at: usize,
    state: &mut State,
) -> Result<Next<'p>, Halt>
    ensures { (setting : Setting)
        → Leads (next_rest setting) (λ k. after_rest setting (any_after.Echoed rest.entry at) value k state.old) result
        state.new }
{
    let done = print_value(alloc, &value, state);
    drop(value);
    match done {
        Ok(()) => Ok(alone(Hand::Echo(rest, at))),
        Err(why) => Err(why),
    }
}

/// A constant of a `const` is defined.
fn defined<'p>(
    name: &'p Bytes,
    value: Value,
    rest: &'p Items<Definition>,
    at: usize,
    state: &mut State,
) -> Result<Next<'p>, Halt>
    ensures { (setting : Setting)
        → Leads (next_rest setting) (λ k. after_rest setting (any_after.Defined name.entry rest.entry at) value k
        state.old) result state.new }
{
    match define_constant(name, value, state) {
        Ok(()) => Ok(alone(Hand::Constants(rest, at))),
        Err(why) => Err(why),
    }
}

/// The program ends with a value.
fn exit_with<'p>(value: Value, state: &mut State) -> Result<Next<'p>, Halt>
    ensures { (setting : Setting)
        → Leads (next_rest setting) (λ k. after_rest setting any_after.ExitWith value k state.old) result state.new }
{
    let done = exit_value(&value, state);
    drop(value);
    match done {
        Ok(given) => Ok(signal(given)),
        Err(why) => Err(why),
    }
}

/// A place of an `unset` is taken away.
fn unset_next<'p>(
    alloc: Global,
    name: &Bytes,
    indices: Items<Value>,
    rest: &'p [Place],
    state: &mut State,
) -> Result<Next<'p>, Halt>
    ensures { (setting : Setting)
        → Leads (next_rest setting) (λ k. and_then (taken (without name.now (keys_of_indices indices) state.old)
        state.old)
        (λ _ t. unset_after setting rest.now k t)) result state.new }
{
    let done = unset_place(alloc, name, indices.as_slice(), state);
    drop(indices);
    match done {
        Ok(()) => Ok(alone(Hand::Unset(rest))),
        Err(why) => Err(why),
    }
}

/// `global`
pub(crate) fn global<'p>(names: &[Bytes], state: &mut State) -> Result<Next<'p>, Halt>
    ensures { (setting : Setting)
        → Leads (next_rest setting) (λ k. and_then (Done (tt {0}) (with_globals names.now state.old)) (next_to k))
        result
        state.new }
{
    match bind_all(names, state) {
        Ok(()) => Ok(signal(Signal::Next)),
        Err(why) => Err(why),
    }
}

/// The entry at a position is bound. Where there is none it does nothing.
pub fn bind_at(binding: &Binding, subject: &Value, at: usize, state: &mut State) -> Result<(), Halt>
    ensures entry { (entry : EntryKey × Data) → slice_get (entries subject.now) at ≡ Some entry
        → AtOnce (bind_run binding.now entry state.old) result state.new }
    ensures past { slice_get (entries subject.now) at ≡ None → IsOk result × (state.new ≡ state.old) }
{
    match subject {
        Value::Array(array) => bind_entry(binding, array, at, state),
        _ => Ok(()),
    }
}
