//! The built-in functions that tell the type of a value.

ghost use Rattle.std.specs.Prelude.{map};
ghost use Rattle.dp_value.specs.Value.{data_of};
ghost use Rattle.dp_operations.specs.Builtins.{on_one, single as one_of, tested, CallGives};
ghost use Rattle.dp_operations.specs.Builtins as table;

use crate::arguments::single;
use dp_value::{CallError, Value};

/// Whether the argument is an integer.
pub(crate) fn is_int(args: &[&Value]) -> Result<Value, CallError>
    ensures { CallGives result (on_one (tested table.is_int) (one_of (map (λ a. data_of a.now) args.now))) }
{
    let Some(a) = single(args) else {
        return Err(CallError::Arguments);
    };
    match a {
        Value::Int(_) => Ok(Value::Bool(true)),
        Value::Null | Value::Bool(_) | Value::Text(_) | Value::Array(_) => Ok(Value::Bool(false)),
    }
}

/// Whether the argument is a text.
pub(crate) fn is_string(args: &[&Value]) -> Result<Value, CallError>
    ensures { CallGives result (on_one (tested table.is_string) (one_of (map (λ a. data_of a.now) args.now))) }
{
    let Some(a) = single(args) else {
        return Err(CallError::Arguments);
    };
    match a {
        Value::Text(_) => Ok(Value::Bool(true)),
        Value::Null | Value::Bool(_) | Value::Int(_) | Value::Array(_) => Ok(Value::Bool(false)),
    }
}

/// Whether the argument is a bool.
pub(crate) fn is_bool(args: &[&Value]) -> Result<Value, CallError>
    ensures { CallGives result (on_one (tested table.is_bool) (one_of (map (λ a. data_of a.now) args.now))) }
{
    let Some(a) = single(args) else {
        return Err(CallError::Arguments);
    };
    match a {
        Value::Bool(_) => Ok(Value::Bool(true)),
        Value::Null | Value::Int(_) | Value::Text(_) | Value::Array(_) => Ok(Value::Bool(false)),
    }
}

/// Whether the argument is null.
pub(crate) fn is_null(args: &[&Value]) -> Result<Value, CallError>
    ensures { CallGives result (on_one (tested table.is_null) (one_of (map (λ a. data_of a.now) args.now))) }
{
    let Some(a) = single(args) else {
        return Err(CallError::Arguments);
    };
    match a {
        Value::Null => Ok(Value::Bool(true)),
        Value::Bool(_) | Value::Int(_) | Value::Text(_) | Value::Array(_) => Ok(Value::Bool(false)),
    }
}

/// Whether the argument is an array.
pub(crate) fn is_array(args: &[&Value]) -> Result<Value, CallError>
    ensures { CallGives result (on_one (tested table.is_array) (one_of (map (λ a. data_of a.now) args.now))) }
{
    let Some(a) = single(args) else {
        return Err(CallError::Arguments);
    };
    match a {
        Value::Array(_) => Ok(Value::Bool(true)),
        Value::Null | Value::Bool(_) | Value::Int(_) | Value::Text(_) => Ok(Value::Bool(false)),
    }
}
