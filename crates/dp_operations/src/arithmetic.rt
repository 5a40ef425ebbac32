//! Arithmetic on values.

ghost use Rattle.std.specs.Prelude.{◌≡◌};
ghost use Rattle.dp_value.specs.Value.{data_of};
ghost use Rattle.dp_operations.specs.Answers.{Gives};
ghost use Rattle.dp_operations.specs.Numbers.{number_of, on_numbers, sum_of, difference_of, product_of, remainder_of};

use dp_value::{Value, ValueError};

/// The integer that an operand stands for.
pub(crate) fn number(value: &Value) -> Option<i64>
    ensures { result ≡ number_of (data_of value.now) }
{
    match value {
        Value::Null => Some(0),
        Value::Bool(b) => Some(i64::from(*b)),
        Value::Int(n) => Some(*n),
        Value::Text(_) | Value::Array(_) => None,
    }
}

/// The sum of two operands.
pub(crate) fn add(a: &Value, b: &Value) -> Result<Value, ValueError>
    ensures { Gives result (on_numbers sum_of (data_of a.now) (data_of b.now)) }
{
    let (Some(m), Some(n)) = (number(a), number(b)) else {
        return Err(ValueError::Unsupported);
    };
    match m.checked_add(n) {
        Some(sum) => Ok(Value::Int(sum)),
        None => Err(ValueError::Overflow),
    }
}

/// The difference of two operands.
pub(crate) fn subtract(a: &Value, b: &Value) -> Result<Value, ValueError>
    ensures { Gives result (on_numbers difference_of (data_of a.now) (data_of b.now)) }
{
    let (Some(m), Some(n)) = (number(a), number(b)) else {
        return Err(ValueError::Unsupported);
    };
    match m.checked_sub(n) {
        Some(difference) => Ok(Value::Int(difference)),
        None => Err(ValueError::Overflow),
    }
}

/// The product of two operands.
pub(crate) fn multiply(a: &Value, b: &Value) -> Result<Value, ValueError>
    ensures { Gives result (on_numbers product_of (data_of a.now) (data_of b.now)) }
{
    let (Some(m), Some(n)) = (number(a), number(b)) else {
        return Err(ValueError::Unsupported);
    };
    match m.checked_mul(n) {
        Some(product) => Ok(Value::Int(product)),
        None => Err(ValueError::Overflow),
    }
}

/// The remainder of two operands, with the sign of the first.
pub(crate) fn remainder(a: &Value, b: &Value) -> Result<Value, ValueError>
    ensures { Gives result (on_numbers remainder_of (data_of a.now) (data_of b.now)) }
{
    let (Some(m), Some(n)) = (number(a), number(b)) else {
        return Err(ValueError::Unsupported);
    };
    if n == 0 {
        return Err(ValueError::DivByZero);
    }
    Ok(Value::Int(m.wrapping_rem(n)))
}
