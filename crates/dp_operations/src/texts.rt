//! The texts of values, and texts joined.

ghost use Rattle.std.specs.Prelude.{◌≡◌, IfOk, MatchResult};
ghost use Rattle.std.specs.Fmt.{signed_decimal};
ghost use Rattle.dp_value.specs.Value.{data_of};
ghost use Rattle.dp_operations.specs.Answers.{Answers};
ghost use Rattle.dp_operations.specs.Text.{joined, text_of};

use dp_bytes::{Memory, Text};
use dp_value::{Value, ValueError, is_beyond};
use std::alloc::Global;

/// The text of a value: an integer in decimal, true as `1`, false and null as nothing, an array as
/// `Array`. A text is not copied. It refuses with `Memory` alone. Source: the PHP manual, "Strings".
pub fn text(alloc: Global, value: &Value) -> Result<Text, ValueError>
    ensures { MatchResult result (λ t. t ≡ text_of (data_of value.now)) (λ e. e ≡ ValueError.Memory) }
{
    Ok(text_bytes(alloc, value)?)
}

/// The text of a value.
pub(crate) fn text_bytes(alloc: Global, value: &Value) -> Result<Text, Memory>
    ensures { IfOk result (λ t. t ≡ text_of (data_of value.now)) }
{
    match value {
        Value::Null | Value::Bool(false) => Ok(Text::empty()),
        Value::Bool(true) => Text::from_slice(alloc, b"1"),
        Value::Int(n) => decimal(alloc, *n),
        Value::Text(text) => text.try_clone(),
        Value::Array(_) => Text::from_slice(alloc, b"Array"),
    }
}

/// An integer in decimal.
fn decimal(alloc: Global, n: i64) -> Result<Text, Memory>
    ensures { IfOk result (λ t. t ≡ signed_decimal n) }
{
    let digits = n.to_string(alloc)?;
    Text::from_slice(alloc, digits.as_bytes())
}

/// Two texts joined.
pub(crate) fn concat(alloc: Global, a: &Value, b: &Value) -> Result<Value, ValueError>
    ensures { Answers result (joined (data_of a.now) (data_of b.now)) }
{
    let mut text = text_bytes(alloc, a)?;
    let rest = text_bytes(alloc, b)?;
    if is_beyond(&text, rest.as_slice()) {
        return Err(ValueError::TooHeavy);
    }
    text.append(alloc, rest.as_slice())?;
    Ok(Value::Text(text))
}
