//! The built-in functions on texts and numbers that look at no array.

ghost use Rattle.std.specs.Prelude.{◌≡◌, map};
ghost use Rattle.dp_value.specs.Value.{data_of};
ghost use Rattle.dp_operations.specs.Builtins as table;
ghost use Rattle.dp_operations.specs.Builtins.{byte_of, double as two_of, first_byte_of, length_of, on_one, on_two};
ghost use Rattle.dp_operations.specs.Builtins.{quotient_of, single as one_of, CallAnswers, CallGives};

use crate::arguments::{double, single};
use dp_bytes::Text;
use dp_value::{CallError, Value};
use std::alloc::Global;

/// The length of a text.
pub(crate) fn length(args: &[&Value]) -> Result<Value, CallError>
    ensures { CallGives result (on_one length_of (one_of (map (λ a. data_of a.now) args.now))) }
{
    let Some(a) = single(args) else {
        return Err(CallError::Arguments);
    };
    match a {
        Value::Text(bytes) => Ok(Value::Int(bytes.size())),
        Value::Null | Value::Bool(_) | Value::Int(_) | Value::Array(_) => {
            Err(CallError::Unsupported)
        }
    }
}

/// The first byte of a text, or 0.
pub(crate) fn first_byte(args: &[&Value]) -> Result<Value, CallError>
    ensures { CallGives result (on_one first_byte_of (one_of (map (λ a. data_of a.now) args.now))) }
{
    let Some(a) = single(args) else {
        return Err(CallError::Arguments);
    };
    match a {
        Value::Text(bytes) => Ok(Value::Int(i64::from(first(bytes.as_slice())))),
        Value::Null | Value::Bool(_) | Value::Int(_) | Value::Array(_) => {
            Err(CallError::Unsupported)
        }
    }
}

/// The first of some bytes, or 0.
fn first(bytes: &[u8]) -> u8
    ensures { result ≡ table.first_byte bytes.now }
{
    match bytes {
        [] => 0,
        [first, ..] => *first,
    }
}

/// The byte of an integer modulo 256, as a text.
pub(crate) fn byte(alloc: Global, args: &[&Value]) -> Result<Value, CallError>
    ensures { CallAnswers result (on_one byte_of (one_of (map (λ a. data_of a.now) args.now))) }
{
    let Some(a) = single(args) else {
        return Err(CallError::Arguments);
    };
    match a {
        Value::Int(n) => {
            let byte = n.rem_euclid(256) as u8;
            Ok(Value::Text(Text::from_slice(alloc, &[byte])?))
        }
        Value::Null | Value::Bool(_) | Value::Text(_) | Value::Array(_) => {
            Err(CallError::Unsupported)
        }
    }
}

/// The quotient of two integers, toward zero.
pub(crate) fn quotient(args: &[&Value]) -> Result<Value, CallError>
    ensures { CallGives result (on_two table.quotient (two_of (map (λ a. data_of a.now) args.now))) }
{
    let Some((a, b)) = double(args) else {
        return Err(CallError::Arguments);
    };
    match (a, b) {
        (Value::Int(m), Value::Int(n)) => divided(*m, *n),
        _ => Err(CallError::Unsupported),
    }
}

/// The quotient of two integers, toward zero.
fn divided(m: i64, n: i64) -> Result<Value, CallError>
    ensures { CallGives result (quotient_of m n) }
{
    if n == 0 {
        return Err(CallError::DivByZero);
    }
    match m.checked_div(n) {
        Some(quotient) => Ok(Value::Int(quotient)),
        None => Err(CallError::Overflow),
    }
}
