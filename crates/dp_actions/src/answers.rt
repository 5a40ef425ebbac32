//! Values of operations, and steps, as parts of a run.

ghost use Rattle.std.specs.Prelude.{◌≡◌, Result};
ghost use Rattle.dp_value.specs.declared.errors.ValueError.{ValueError as Refusal};
ghost use Rattle.dp_value.specs.declared.errors.CallError.{CallError as CallRefusal};
ghost use Rattle.dp_value.specs.Data.{Data};
ghost use Rattle.dp_operations.specs.Answers.{Answers};
ghost use Rattle.dp_operations.specs.Builtins.{CallAnswers};
ghost use Rattle.dp_actions.specs.AtOnce.{AtOnce};
ghost use Rattle.dp_actions.specs.Effects.{exit_run, print_run, status_of};
ghost use Rattle.dp_actions.specs.Run.{Done, and_then};
ghost use Rattle.dp_actions.specs.Values.{builtin_run, is_missing as missing, value_run};
ghost use Rattle.dp_actions.specs.inner.Missing.{AnswersMissing};

use crate::faults::{fatal, fault, settled};
use crate::halt::Halt;
use crate::signal::Signal;
use dp_operations::text;
use dp_state::{FatalKind, Fault, Outcome, State};
use dp_value::{CallError, Value, ValueError};
use std::alloc::Global;

/// The value of an operation.
pub fn value_of(answer: Result<Value, ValueError>, state: &State) -> Result<Value, Halt>
    ensures { (table : Result Data Refusal) → Answers answer table
        → AtOnce (value_run table state.now) result state.now }
{
    match answer {
        Ok(value) => Ok(value),
        Err(why) => Err(fault(Fault::from(why), state)),
    }
}

/// Whether a value is missing, by what was looked up.
pub(crate) fn missing_of(answer: Result<bool, ValueError>, state: &State) -> Result<bool, Halt>
    ensures { (table : Result Data Refusal) → AnswersMissing answer table
        → AtOnce (and_then (value_run table state.now) (λ v t. Done (missing v) t)) result state.now }
{
    match answer {
        Ok(missing) => Ok(missing),
        Err(why) => Err(fault(Fault::from(why), state)),
    }
}

/// The value of a built-in function.
pub fn builtin_value(answer: Result<Value, CallError>, state: &State) -> Result<Value, Halt>
    ensures { (table : Result Data CallRefusal) → CallAnswers answer table
        → AtOnce (builtin_run table state.now) result state.now }
{
    match answer {
        Ok(value) => Ok(value),
        Err(why) => Err(fault(Fault::from(why), state)),
    }
}

/// Whether a value is null.
pub fn is_missing(value: &Value) -> bool
    ensures { result ≡ missing value.now }
{
    match value {
        Value::Null => true,
        Value::Bool(_) => false,
        Value::Int(_) => false,
        Value::Text(_) => false,
        Value::Array(_) => false,
    }
}

/// Writes the text of a value.
pub fn print_value(alloc: Global, value: &Value, state: &mut State) -> Result<(), Halt>
    ensures { AtOnce (print_run value.now state.old) result state.new }
{
    let Ok(text) = text(alloc, value) else {
        return Err(Halt::Memory);
    };
    let step = state.print(text.as_slice());
    settled(step, state)
}

/// Ends the program with a value.
pub fn exit_value(value: &Value, state: &mut State) -> Result<Signal, Halt>
    ensures { AtOnce (exit_run value.now state.old) result state.new }
{
    match value {
        Value::Int(n) => match status(n) {
            Some(status) => Err(Halt::Finished(Outcome::Exit(status))),
            None => Err(fatal(FatalKind::Unsupported, state)),
        },
        Value::Text(bytes) => match state.print(bytes.as_slice()) {
            Ok(()) => Err(Halt::Finished(Outcome::Exit(0))),
            Err(why) => Err(fault(why, state)),
        },
        Value::Null => Err(fatal(FatalKind::Unsupported, state)),
        Value::Bool(_) => Err(fatal(FatalKind::Unsupported, state)),
        Value::Array(_) => Err(fatal(FatalKind::Unsupported, state)),
    }
}

/// The status that an integer is.
fn status(n: &i64) -> Option<u8>
    ensures { result ≡ status_of n.now }
{
    match u8::try_from(*n) {
        Ok(status) => {
            if status <= 199 {
                return Some(status);
            }
            None
        }
        Err(_) => None,
    }
}
