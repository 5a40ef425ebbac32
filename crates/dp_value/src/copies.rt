//! Copies of values, which share what they keep until one of them is written.

ghost use Rattle.std.specs.Prelude.{◌≡◌, IfOk};

use crate::value::Columns;
use crate::{PhpArray, Value};
use dp_bytes::Memory;
use std::clone::Clone;

impl Value {
    /// The same value for one more owner. Copies nothing of what it holds.
    pub fn try_clone(&self) -> Result<Value, Memory>
        ensures { IfOk result (λ copy. copy ≡ self.now) }
    {
        match self {
            Value::Null => Ok(Value::Null),
            Value::Bool(b) => Ok(Value::Bool(*b)),
            Value::Int(n) => Ok(Value::Int(*n)),
            Value::Text(bytes) => Ok(Value::Text(bytes.try_clone()?)),
            Value::Array(array) => Ok(Value::Array(array.try_clone()?)),
        }
    }
}

impl PhpArray {
    /// The same array for one more owner, with the same largest integer key. Copies nothing of what it
    /// holds.
    pub fn try_clone(&self) -> Result<PhpArray, Memory>
        ensures { IfOk result (λ copy. copy ≡ self.now) }
    {
        match &self.columns {
            None => Ok(PhpArray::new(self.alloc)),
            Some(columns) => Ok(PhpArray {
                alloc: self.alloc,
                columns: Some(columns.clone()?),
            }),
        }
    }
}

impl Columns {
    /// Equal columns. What the values hold is shared.
    pub(crate) fn try_clone(&self) -> Result<Columns, Memory>
        ensures { IfOk result (λ copy. copy ≡ self.now) }
    {
        let alloc = *self.values.allocator();
        let rows = self.values.as_slice();
        let mut values = Vec::with_capacity(alloc, rows.len())?;
        for value in rows {
            values.push(value.try_clone()?)?;
        }
        let kept = self.kept.try_clone()?;
        Ok(Columns {
            kept,
            values,
            start: self.start,
            gone: self.gone,
            closed: 0,
            largest: self.largest,
            weight: self.weight,
        })
    }
}

/// Equal columns, as one owner among several gets them before it writes.
impl Clone for Columns {
    ghost use Rattle.std.specs.Prelude.{◌≡◌};

    ghost is_clone = { λ columns copy. copy ≡ columns };

    fn clone(&self) -> Result<Columns, Memory> {
        self.try_clone()
    }
}
