//! The weights of values.

ghost use Rattle.std.specs.Prelude.{◌≡◌, ◌++◌, length, nat_le, not};
ghost use Rattle.dp_value.specs.Data.{weight_of};
ghost use Rattle.dp_value.specs.Table.{weight_limit};
ghost use Rattle.dp_value.specs.Value.{data_of};

use crate::{Value, WEIGHT_LIMIT};
use dp_bytes::Text;

/// The weight of a value: the length of a text; of an array the number of its entries, the lengths
/// of its text keys and the weights of its values together; else 0. Takes no memory, nor a walk.
pub fn weight(value: &Value) -> u64
    ensures { result ≡ weight_of (data_of value.now) }
{
    match value {
        Value::Null | Value::Bool(_) | Value::Int(_) => 0,
        Value::Text(bytes) => bytes.len() as u64,
        Value::Array(array) => array.weight(),
    }
}

/// Whether a text with a piece behind it weighs more than a value may. Takes no memory.
pub fn is_beyond(text: &Text, piece: &[u8]) -> bool
    ensures { result ≡ not (nat_le (length (text.now ++ piece.now)) weight_limit) }
{
    (text.len() as u64).saturating_add(piece.len() as u64) > WEIGHT_LIMIT
}
