//! The keys of arrays.

ghost use Rattle.std.specs.Prelude.{◌≡◌, IfOk};

use crate::Value;
use dp_bytes::{Memory, Text};

/// A key of an array: a 64-bit integer, or a byte string that does not spell one.
/// Source: the PHP manual, "Arrays".
#[derive(Debug, PartialEq, Eq, Hash, Drop)]
pub enum Key {
    Int(i64),
    Text(Text),
}

impl Key {
    ghost use Rattle.dp_value.specs.Data.{data_of_key};
    ghost use Rattle.dp_value.specs.Key.{key_eq, key_weight};
    ghost use Rattle.dp_value.specs.Value.{data_of};

    /// The same key for one more owner. Its bytes are not copied.
    pub fn try_clone(&self) -> Result<Key, Memory>
        ensures { IfOk result (λ copy. copy ≡ self.now) }
    {
        match self {
            Key::Int(n) => Ok(Key::Int(*n)),
            Key::Text(bytes) => Ok(Key::Text(bytes.try_clone()?)),
        }
    }

    /// The value that a program sees of this key: an integer or a text.
    pub fn to_value(&self) -> Result<Value, Memory>
        ensures { IfOk result (λ v. data_of v ≡ data_of_key self.now) }
    {
        match self {
            Key::Int(n) => Ok(Value::Int(*n)),
            Key::Text(bytes) => Ok(Value::Text(bytes.try_clone()?)),
        }
    }

    /// Whether this is the same key.
    pub(crate) fn is(&self, other: &Key) -> bool
        ensures { result ≡ key_eq self.now other.now }
    {
        self == other
    }

    /// What a key adds to the weight of its array: the length of a text, and nothing for an integer.
    pub fn weight(&self) -> u64
        ensures { result ≡ key_weight self.now }
    {
        match self {
            Key::Int(_) => 0,
            Key::Text(bytes) => bytes.len() as u64,
        }
    }
}
