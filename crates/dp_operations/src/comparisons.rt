//! Comparisons of values.

ghost use Rattle.std.specs.Prelude.{◌≡◌};
ghost use Rattle.dp_value.specs.Value.{data_of};
ghost use Rattle.dp_operations.specs.Comparisons.{equality, equal_texts, has_digit, order_of};

use dp_value::{Value, ValueError};
use std::cmp::Ordering;

/// Whether two values are equal, as `==` says.
pub(crate) fn equal(a: &Value, b: &Value) -> Result<bool, ValueError>
    ensures { result ≡ equality (data_of a.now) (data_of b.now) }
{
    match (a, b) {
        (Value::Null, Value::Null) => Ok(true),
        (Value::Bool(a), Value::Bool(b)) => Ok(a == b),
        (Value::Int(a), Value::Int(b)) => Ok(a == b),
        (Value::Text(a), Value::Text(b)) => same_texts(a.as_slice(), b.as_slice()),
        _ => Err(ValueError::Unsupported),
    }
}

/// Whether two texts are equal, where none of them could be a number that the other one spells.
fn same_texts(a: &[u8], b: &[u8]) -> Result<bool, ValueError>
    ensures { result ≡ equal_texts a.now b.now }
{
    if a == b {
        return Ok(true);
    }
    if any_digit(a) && any_digit(b) {
        return Err(ValueError::Unsupported);
    }
    Ok(false)
}

/// Whether a text has a digit.
fn any_digit(bytes: &[u8]) -> bool
    ensures { result ≡ has_digit bytes.now }
{
    bytes.iter().any(|b| b.is_ascii_digit())
}

/// How two integers compare.
pub(crate) fn order(a: &Value, b: &Value) -> Result<Ordering, ValueError>
    ensures { result ≡ order_of (data_of a.now) (data_of b.now) }
{
    match (a, b) {
        (Value::Int(a), Value::Int(b)) => Ok(a.cmp(b)),
        _ => Err(ValueError::Unsupported),
    }
}
