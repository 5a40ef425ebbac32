//! The operators on one value and between two.

ghost use lib.IntN.{neg_ℤ};
ghost use Rattle.std.specs.Ordering.{is_lt, is_le, is_gt, is_ge};
ghost use Rattle.dp_value.specs.Value.{data_of};
ghost use Rattle.dp_operations.specs.Answers.{Answers, Gives};
ghost use Rattle.dp_operations.specs.Binary.{binary_of, by_order, denial, sign, truth};
ghost use Rattle.dp_operations.specs.Comparisons.{equality, order_of};
ghost use Rattle.dp_operations.specs.Numbers.{whole};
ghost use Rattle.dp_operations.specs.Unary.{decremented, incremented, unary_of};

use crate::arithmetic::{add, multiply, number, remainder, subtract};
use crate::comparisons::{equal, order};
use crate::texts::concat;
use dp_tree::{BinaryOp, UnaryOp};
use dp_value::{Value, ValueError, same, truthy};
use std::alloc::Global;
use std::cmp::Ordering;

/// What an operator between two values gives. Source: the PHP manual, "Operators".
pub fn binary(alloc: Global, op: BinaryOp, a: &Value, b: &Value) -> Result<Value, ValueError>
    ensures { Answers result (binary_of op (data_of a.now) (data_of b.now)) }
{
    match op {
        BinaryOp::Add => add(a, b),
        BinaryOp::Sub => subtract(a, b),
        BinaryOp::Mul => multiply(a, b),
        BinaryOp::Rem => remainder(a, b),
        BinaryOp::Concat => concat(alloc, a, b),
        BinaryOp::Equal => equals(a, b),
        BinaryOp::NotEqual => differs(a, b),
        BinaryOp::Identical => Ok(Value::Bool(same(a, b))),
        BinaryOp::NotIdentical => Ok(Value::Bool(!same(a, b))),
        BinaryOp::Less => less(a, b),
        BinaryOp::LessEqual => less_or_equal(a, b),
        BinaryOp::Greater => greater(a, b),
        BinaryOp::GreaterEqual => greater_or_equal(a, b),
        BinaryOp::Spaceship => compare(a, b),
    }
}

/// What an operator on one value gives. Takes no memory. Source: the PHP manual, "Operators".
pub fn unary(op: UnaryOp, a: &Value) -> Result<Value, ValueError>
    ensures { Gives result (unary_of op (data_of a.now)) }
{
    match op {
        UnaryOp::Not => Ok(Value::Bool(!truthy(a))),
        UnaryOp::Minus => match number(a) {
            None => Err(ValueError::Unsupported),
            Some(n) => negated(n),
        },
        UnaryOp::Plus => match number(a) {
            None => Err(ValueError::Unsupported),
            Some(n) => Ok(Value::Int(n)),
        },
        UnaryOp::Increment => increment(a),
        UnaryOp::Decrement => decrement(a),
    }
}

/// The negative of an integer.
fn negated(n: i64) -> Result<Value, ValueError>
    ensures { Gives result (whole (neg_ℤ n)) }
{
    match n.checked_neg() {
        Some(negative) => Ok(Value::Int(negative)),
        None => Err(ValueError::Overflow),
    }
}

/// One more; null becomes 1.
fn increment(a: &Value) -> Result<Value, ValueError>
    ensures { Gives result (incremented (data_of a.now)) }
{
    match a {
        Value::Null => Ok(Value::Int(1)),
        Value::Int(n) => match n.checked_add(1) {
            Some(next) => Ok(Value::Int(next)),
            None => Err(ValueError::Overflow),
        },
        Value::Bool(_) | Value::Text(_) | Value::Array(_) => Err(ValueError::Unsupported),
    }
}

/// One less; null stays.
fn decrement(a: &Value) -> Result<Value, ValueError>
    ensures { Gives result (decremented (data_of a.now)) }
{
    match a {
        Value::Null => Ok(Value::Null),
        Value::Int(n) => match n.checked_sub(1) {
            Some(last) => Ok(Value::Int(last)),
            None => Err(ValueError::Overflow),
        },
        Value::Bool(_) | Value::Text(_) | Value::Array(_) => Err(ValueError::Unsupported),
    }
}

/// `==`.
fn equals(a: &Value, b: &Value) -> Result<Value, ValueError>
    ensures { Gives result (truth (equality (data_of a.now) (data_of b.now))) }
{
    match equal(a, b) {
        Ok(equal) => Ok(Value::Bool(equal)),
        Err(error) => Err(error),
    }
}

/// `!=`.
fn differs(a: &Value, b: &Value) -> Result<Value, ValueError>
    ensures { Gives result (denial (equality (data_of a.now) (data_of b.now))) }
{
    match equal(a, b) {
        Ok(equal) => Ok(Value::Bool(!equal)),
        Err(error) => Err(error),
    }
}

/// `<`.
fn less(a: &Value, b: &Value) -> Result<Value, ValueError>
    ensures { Gives result (by_order is_lt (order_of (data_of a.now) (data_of b.now))) }
{
    match order(a, b) {
        Ok(order) => Ok(Value::Bool(order.is_lt())),
        Err(error) => Err(error),
    }
}

/// `<=`.
fn less_or_equal(a: &Value, b: &Value) -> Result<Value, ValueError>
    ensures { Gives result (by_order is_le (order_of (data_of a.now) (data_of b.now))) }
{
    match order(a, b) {
        Ok(order) => Ok(Value::Bool(order.is_le())),
        Err(error) => Err(error),
    }
}

/// `>`.
fn greater(a: &Value, b: &Value) -> Result<Value, ValueError>
    ensures { Gives result (by_order is_gt (order_of (data_of a.now) (data_of b.now))) }
{
    match order(a, b) {
        Ok(order) => Ok(Value::Bool(order.is_gt())),
        Err(error) => Err(error),
    }
}

/// `>=`.
fn greater_or_equal(a: &Value, b: &Value) -> Result<Value, ValueError>
    ensures { Gives result (by_order is_ge (order_of (data_of a.now) (data_of b.now))) }
{
    match order(a, b) {
        Ok(order) => Ok(Value::Bool(order.is_ge())),
        Err(error) => Err(error),
    }
}

/// `<=>`: -1, 0 or 1.
fn compare(a: &Value, b: &Value) -> Result<Value, ValueError>
    ensures { Gives result (sign (order_of (data_of a.now) (data_of b.now))) }
{
    match order(a, b) {
        Ok(Ordering::Less) => Ok(Value::Int(-1)),
        Ok(Ordering::Equal) => Ok(Value::Int(0)),
        Ok(Ordering::Greater) => Ok(Value::Int(1)),
        Err(error) => Err(error),
    }
}
