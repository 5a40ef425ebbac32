//! What is made of the old value of a place.

#![tactic(auto, using(crate::proofs::AtOnceLaws::acting))]

ghost use Rattle.std.specs.Prelude.{◌≡◌, IsTrue};
ghost use Rattle.dp_tree.specs.declared.operators.BinaryOp.TheVariants as operator;
ghost use Rattle.dp_tree.specs.declared.tree.Order.{Order as AnyOrder};
ghost use Rattle.dp_actions.specs.AtOnce.{AtOnce};
ghost use Rattle.dp_actions.specs.Run.{and_then, given_up};
ghost use Rattle.dp_actions.specs.Places.{combined, step_from as from_old, step_under, step_written, stepped};

use crate::answers::value_of;
use crate::halt::Halt;
use crate::joins::{grown, operated};
use crate::places::{assign_place, put_place, read_place};
use dp_bytes::Bytes;
use dp_operations::unary;
use dp_state::State;
use dp_tree::{BinaryOp, Order, UnaryOp};
use dp_value::Value;
use std::alloc::Global;

/// Writes what an operator makes of an old value and another one.
pub fn combine(
    alloc: Global,
    op: BinaryOp,
    name: &Bytes,
    indices: &[Value],
    old: Value,
    value: &Value,
    state: &mut State,
) -> Result<Value, Halt>
    ensures { AtOnce (combined op name.now indices.now old value.now state.old) result state.new }
{
    if is_concat(op) {
        return grown(alloc, name, indices, old, value, state);
    }
    let new = operated(alloc, op, old, value, state)?;
    assign_place(alloc, name, indices, false, new, state)
}

/// Whether texts are joined.
fn is_concat(op: BinaryOp) -> bool
    ensures { IsTrue result → op ≡ operator.Concat }
{
    matches!(op, BinaryOp::Concat)
}

/// Applies `++` or `--` to a place and gives the new or the old value, as `order` says.
pub fn step_place(
    alloc: Global,
    op: UnaryOp,
    order: Order,
    name: &Bytes,
    indices: &[Value],
    state: &mut State,
) -> Result<Value, Halt>
    ensures { AtOnce (step_under op order name.now indices.now state.old) result state.new }
{
    let old = read_place(alloc, name, indices, state)?;
    step_from(alloc, op, order, name, indices, old, state)
}

/// Applies `++` or `--` to a place. Its value is given up, in whatever order it was asked for.
pub(crate) fn put_step(
    alloc: Global,
    op: UnaryOp,
    name: &Bytes,
    indices: &[Value],
    state: &mut State,
) -> Result<(), Halt>
    ensures { (order : AnyOrder) → AtOnce (and_then (step_under op order name.now indices.now state.old) given_up)
        result state.new }
{
    let old = read_place(alloc, name, indices, state)?;
    let new = value_of(unary(op, &old), state)?;
    drop(old);
    put_place(alloc, name, indices, false, new, state)
}

/// A `++` or `--` of an old value.
fn step_from(
    alloc: Global,
    op: UnaryOp,
    order: Order,
    name: &Bytes,
    indices: &[Value],
    old: Value,
    state: &mut State,
) -> Result<Value, Halt>
    ensures { AtOnce (from_old op order name.now indices.now old state.old) result state.new }
{
    let new = value_of(unary(op, &old), state)?;
    write_step(alloc, order, name, indices, old, new, state)
}

/// Writes the new value of a `++` or `--`.
fn write_step(
    alloc: Global,
    order: Order,
    name: &Bytes,
    indices: &[Value],
    old: Value,
    new: Value,
    state: &mut State,
) -> Result<Value, Halt>
    ensures { AtOnce (step_written order name.now indices.now old new state.old) result state.new }
{
    let new = assign_place(alloc, name, indices, false, new, state)?;
    Ok(ordered(order, old, new))
}

/// The value of a `++` or `--`.
fn ordered(order: Order, old: Value, new: Value) -> Value
    ensures { result ≡ stepped order old new }
{
    match order {
        Order::StepFirst => {
            drop(old);
            new
        }
        Order::ValueFirst => {
            drop(new);
            old
        }
    }
}
