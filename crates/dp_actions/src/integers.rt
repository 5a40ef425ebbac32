//! Expressions of integers alone: what they come to is found at once, in the state that is lent, without memory.

ghost use Rattle.std.specs.Prelude.{◌≡◌, [], IfSome, Ok, Some, false, map};
ghost use Rattle.dp_state.specs.States.{read};
ghost use Rattle.dp_tree.specs.declared.tree.Order.{Order as AnyOrder};
ghost use Rattle.dp_value.specs.declared.value.Value.TheVariants as variant;
ghost use Rattle.dp_actions.specs.AtOnce.{AtOnce};
ghost use Rattle.dp_actions.specs.Expressions.{chained as chained_run, evaluation, expression_run, link_run};
ghost use Rattle.dp_actions.specs.Loops.{bind_name};
ghost use Rattle.dp_actions.specs.Observed.{Observed};
ghost use Rattle.dp_actions.specs.Places.{assign_run, compound_under, step_under};
ghost use Rattle.dp_actions.specs.Setting.{Setting};
ghost use Rattle.dp_actions.specs.Run.{Done, and_then, given_up};
ghost use Rattle.dp_actions.specs.Values.{holds as value_holds};

use crate::changes::put_step;
use crate::halt::Halt;
use crate::places::assign_variable;
use dp_bytes::Bytes;
use dp_operations::{comparison, integer_result};
use dp_state::State;
use dp_tree::{BinaryOp, Expression, Link, Operator, UnaryOp};
use dp_value::Value;
use std::alloc::Global;

/// The integer that an expression comes to, if it is a number, a variable that holds an integer, or an operator between
/// such. `None` says nothing. Takes no memory.
pub fn integer(e: &Expression, state: &State) -> Option<i64>
    ensures { IfSome result (λ n. Observed (expression_run e.now).value (Ok (variant.Int n)) state.now) }
{
    match e {
        Expression::Chain(first, links) => joined(first.as_ref(), links.as_slice(), state),
        _ => smallest(e, state),
    }
}

/// The integer that an operand comes to. `integer` does the same outside the cycle of calls, where a compiler can make
/// it a part of its caller.
#[cycle(integers)]
fn operand(e: &Expression, state: &State) -> Option<i64>
    ensures { IfSome result (λ n. Observed (expression_run e.now).value (Ok (variant.Int n)) state.now) }
{
    match e {
        Expression::Chain(first, links) => joined(first.as_ref(), links.as_slice(), state),
        _ => smallest(e, state),
    }
}

/// The integer that operands come to which are joined from left to right.
#[cycle(integers)]
fn joined(first: &Expression, links: &[Link], state: &State) -> Option<i64>
    ensures { IfSome result (λ n. Observed (chained_run (expression_run first.now) (map link_run links.now))
        (Ok (variant.Int n)) state.now) }
{
    let Some(mut n) = operand(first, state) else {
        return None;
    };
    for link in links {
        let Operator::Of(op) = link.operator else {
            return None;
        };
        let Some(m) = operand(&link.operand, state) else {
            return None;
        };
        let Some(next) = integer_result(op, n, m) else {
            return None;
        };
        n = next;
    }
    Some(n)
}

/// The integer that a number is, or a variable holds.
fn smallest(e: &Expression, state: &State) -> Option<i64>
    ensures { IfSome result (λ n. Observed (expression_run e.now).value (Ok (variant.Int n)) state.now) }
{
    match e {
        Expression::Number(n) => Some(*n),
        Expression::Variable(name) => held(name, state),
        _ => None,
    }
}

/// The integer that a variable holds.
fn held(name: &Bytes, state: &State) -> Option<i64>
    ensures { IfSome result (λ n. read state.now name.now ≡ Some (variant.Int n)) }
{
    match state.read(name) {
        Some(Value::Int(n)) => Some(*n),
        _ => None,
    }
}

/// Whether the value of an expression holds, if it is `true` or `false` or compares two integers. `None` says nothing.
/// Takes no memory.
pub fn truth(e: &Expression, state: &State) -> Option<bool>
    ensures { IfSome result (λ truth. Observed (λ setting s. and_then ((expression_run e.now).value setting s)
        (λ v t. Done (value_holds v) t)) (Ok truth) state.now) }
{
    match e {
        Expression::Bool(b) => Some(*b),
        Expression::Chain(first, links) => compared(first.as_ref(), links.as_slice(), state),
        _ => None,
    }
}

/// Whether a comparison of two integers holds.
fn compared(first: &Expression, links: &[Link], state: &State) -> Option<bool>
    ensures { IfSome result (λ truth. Observed (λ setting s. and_then (chained_run (expression_run first.now)
        (map link_run links.now) setting s) (λ v t. Done (value_holds v) t)) (Ok truth) state.now) }
{
    let [link] = links else {
        return None;
    };
    let Operator::Of(op) = link.operator else {
        return None;
    };
    let (Some(a), Some(b)) = (operand(first, state), operand(&link.operand, state)) else {
        return None;
    };
    comparison(op, a, b)
}

/// The integer that an operator makes of the one that a variable holds and of what an expression comes to. `None` says
/// nothing. Takes no memory.
pub fn combined_integer(
    op: BinaryOp,
    name: &Bytes,
    right: &Expression,
    state: &State,
) -> Option<i64>
    ensures { IfSome result (λ n. (setting : Setting) → compound_under op name.now (evaluation right.now) [] setting
        state.now ≡ assign_run name.now [] false (variant.Int n) state.now) }
{
    let Some(old) = held(name, state) else {
        return None;
    };
    let Some(value) = integer(right, state) else {
        return None;
    };
    integer_result(op, old, value)
}

/// Gives a variable an integer.
pub fn assign_integer(name: &Bytes, n: i64, state: &mut State) -> Result<(), Halt>
    ensures { AtOnce (bind_name name.now (variant.Int n) state.old) result state.new }
{
    if state.put_integer(name, n) {
        return Ok(());
    }
    assign_variable(name, Value::Int(n), state)
}

/// Applies `++` or `--` to a variable. Its value is given up, in whatever order it was asked for.
pub fn step_variable(
    alloc: Global,
    op: UnaryOp,
    name: &Bytes,
    state: &mut State,
) -> Result<(), Halt>
    ensures { (order : AnyOrder) → AtOnce (and_then (step_under op order name.now [] state.old) given_up) result
        state.new }
{
    match added(op, name, state) {
        Some(_) => Ok(()),
        None => put_step(alloc, op, name, &[], state),
    }
}

/// Applies `++` or `--` to the integer that a variable holds, and gives the new one. Where it holds none, nothing
/// changes.
fn added(op: UnaryOp, name: &Bytes, state: &mut State) -> Option<i64>
    ensures some { IfSome result (λ n. (order : AnyOrder) → and_then (step_under op order name.now [] state.old)
        given_up ≡ Done tt state.new) }
    ensures none { result ≡ None → state.new ≡ state.old }
{
    match op {
        UnaryOp::Increment => state.add(name, 1),
        UnaryOp::Decrement => state.add(name, -1),
        _ => None,
    }
}
