//! What is done with what an evaluation answers: nothing where it broke off.

ghost use Rattle.dp_state.specs.declared.state.State.{State as AnyState};
ghost use Rattle.dp_tree.specs.declared.tree.Order.{Order as AnyOrder};
ghost use Rattle.dp_value.specs.declared.value.Value.TheVariants as variant;
ghost use Rattle.dp_value.specs.Value.{data_of};
ghost use Rattle.dp_operations.specs.Binary.{binary_of};
ghost use Rattle.dp_operations.specs.Unary.{unary_of};
ghost use Rattle.dp_actions.specs.declared.signal.Signal.TheVariants as way;
ghost use Rattle.dp_actions.specs.After.{Then};
ghost use Rattle.dp_actions.specs.Effects.{exit_run, print_run};
ghost use Rattle.dp_actions.specs.Places.{assign_run, combined, missing_run, step_under};
ghost use Rattle.dp_actions.specs.Run.{Done, and_then, given_up};
ghost use Rattle.dp_actions.specs.Values.{holds, value_run};

use crate::answers::{exit_value, print_value, value_of};
use crate::changes::{combine, put_step, step_place};
use crate::halt::Halt;
use crate::joins::operated;
use crate::places::{assign_place, is_missing_place, put_place};
use crate::signal::Signal;
use dp_bytes::{Bytes, Items};
use dp_operations::unary;
use dp_state::State;
use dp_tree::{BinaryOp, Order, UnaryOp};
use dp_value::{Value, truthy};
use std::alloc::Global;

/// The value of an operator with one operand.
pub fn then_unary(op: UnaryOp, operand: Result<Value, Halt>, state: &State) -> Result<Value, Halt>
    ensures { Then operand (λ v s. value_run (unary_of op (data_of v)) s) state.now result state.now }
{
    let value = operand?;
    value_of(unary(op, &value), state)
}

/// The value of an operator with two operands.
pub fn then_binary(
    alloc: Global,
    op: BinaryOp,
    left: Value,
    right: Result<Value, Halt>,
    state: &State,
) -> Result<Value, Halt>
    ensures { Then right (λ v s. value_run (binary_of op (data_of left) (data_of v)) s) state.now result state.now }
{
    let value = right?;
    operated(alloc, op, left, &value, state)
}

/// Whether a value holds.
pub fn then_holds(value: Result<Value, Halt>) -> Result<bool, Halt>
    ensures { (s : AnyState) → Then value (λ v t. Done (holds v) t) s result s }
{
    let value = value?;
    Ok(truthy(&value))
}

/// Whether a value holds, as a value.
pub fn then_truth(value: Result<Value, Halt>) -> Result<Value, Halt>
    ensures { (s : AnyState) → Then value (λ v t. Done (variant.Bool (holds v)) t) s result s }
{
    let value = value?;
    Ok(Value::Bool(truthy(&value)))
}

/// Writes the text of a value.
pub fn then_print(alloc: Global, value: Result<Value, Halt>, state: &mut State) -> Result<(), Halt>
    ensures { Then value print_run state.old result state.new }
{
    let value = value?;
    print_value(alloc, &value, state)
}

/// Ends the program with a value.
pub fn then_exit(value: Result<Value, Halt>, state: &mut State) -> Result<Signal, Halt>
    ensures { Then value exit_run state.old result state.new }
{
    let value = value?;
    exit_value(&value, state)
}

/// Out of the function or the file, with a value.
pub fn then_return(value: Result<Value, Halt>) -> Result<Signal, Halt>
    ensures { (s : AnyState) → Then value (λ v t. Done (way.Return v) t) s result s }
{
    let value = value?;
    Ok(Signal::Return(value))
}

/// A signal, where what came before it is done.
pub fn then_signal(done: Result<(), Halt>, signal: Signal) -> Result<Signal, Halt>
    ensures { (s : AnyState) → Then done (λ _ t. Done signal t) s result s }
{
    match done {
        Ok(()) => Ok(signal),
        Err(halt) => {
            drop(signal);
            Err(halt)
        }
    }
}

/// Whether isset finds nothing at a place, or null.
pub fn then_missing(
    alloc: Global,
    name: &Bytes,
    indices: Result<Items<Value>, Halt>,
    state: &State,
) -> Result<bool, Halt>
    ensures { Then indices (λ values s. missing_run name.now values s) state.now result state.now }
{
    let indices = indices?;
    is_missing_place(alloc, name, indices.as_slice(), state)
}

/// Applies `++` or `--` to a place whose indices are evaluated, and gives the new or the old value, as `order` says.
pub fn then_step(
    alloc: Global,
    op: UnaryOp,
    order: Order,
    name: &Bytes,
    indices: Result<Items<Value>, Halt>,
    state: &mut State,
) -> Result<Value, Halt>
    ensures { Then indices (λ values s. step_under op order name.now values s) state.old result state.new }
{
    let indices = indices?;
    step_place(alloc, op, order, name, indices.as_slice(), state)
}

/// Applies `++` or `--` to a place whose indices are evaluated. Its value is given up.
pub fn then_put_step(
    alloc: Global,
    op: UnaryOp,
    name: &Bytes,
    indices: Result<Items<Value>, Halt>,
    state: &mut State,
) -> Result<(), Halt>
    ensures { (order : AnyOrder) → Then indices (λ values s. and_then (step_under op order name.now values s) given_up)
        state.old result state.new }
{
    let indices = indices?;
    put_step(alloc, op, name, indices.as_slice(), state)
}

/// Writes a value, or one more entry, and gives the value.
pub fn then_assign(
    alloc: Global,
    name: &Bytes,
    indices: &[Value],
    push: bool,
    value: Result<Value, Halt>,
    state: &mut State,
) -> Result<Value, Halt>
    ensures { Then value (λ v s. assign_run name.now indices.now push v s) state.old result state.new }
{
    let value = value?;
    assign_place(alloc, name, indices, push, value, state)
}

/// Writes a value, or one more entry.
pub fn then_put_place(
    alloc: Global,
    name: &Bytes,
    indices: &[Value],
    push: bool,
    value: Result<Value, Halt>,
    state: &mut State,
) -> Result<(), Halt>
    ensures { Then value (λ v s. and_then (assign_run name.now indices.now push v s) given_up) state.old result
        state.new }
{
    let value = value?;
    put_place(alloc, name, indices, push, value, state)
}

/// Writes what an operator makes of an old value and another one.
pub fn then_combine(
    alloc: Global,
    op: BinaryOp,
    name: &Bytes,
    indices: &[Value],
    old: Value,
    value: Result<Value, Halt>,
    state: &mut State,
) -> Result<Value, Halt>
    ensures { Then value (λ v s. combined op name.now indices.now old v s) state.old result state.new }
{
    let value = value?;
    combine(alloc, op, name, indices, old, &value, state)
}
