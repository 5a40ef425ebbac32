//! Whether values count as true.

ghost use Rattle.std.specs.Prelude.{◌≡◌};
ghost use Rattle.dp_value.specs.Truth.{is_true};
ghost use Rattle.dp_value.specs.Value.{data_of};

use crate::Value;

/// Whether a value counts as true. Null, false, 0, the empty text, the text `0` and the empty array
/// do not. Takes no memory. Source: the PHP manual, "Booleans".
pub fn truthy(value: &Value) -> bool
    ensures { result ≡ is_true (data_of value.now) }
{
    match value {
        Value::Null => false,
        Value::Bool(b) => *b,
        Value::Int(n) => *n != 0,
        Value::Text(bytes) => !bytes.is_empty() && bytes.as_slice() != b"0".as_slice(),
        Value::Array(array) => !array.is_empty(),
    }
}
