//! Whether values are identical.

ghost use Rattle.std.specs.Prelude.{◌≡◌};
ghost use Rattle.dp_value.specs.Comparison.{identical, identical_entries};
ghost use Rattle.dp_value.specs.Data.{entries_of};
ghost use Rattle.dp_value.specs.Value.{data_of};

use crate::rows::nth_value;
use crate::value::Columns;
use crate::{PhpArray, Value};

/// Whether two values are identical, as `===` says: the same type and value; arrays with the same
/// pairs in the same order. Takes no memory. Source: the PHP manual, "Comparison Operators".
#[cycle(comparing)]
pub fn same(a: &Value, b: &Value) -> bool
    ensures { result ≡ identical (data_of a.now) (data_of b.now) }
{
    match (a, b) {
        (Value::Null, Value::Null) => true,
        (Value::Bool(a), Value::Bool(b)) => a == b,
        (Value::Int(a), Value::Int(b)) => a == b,
        (Value::Text(a), Value::Text(b)) => a == b,
        (Value::Array(a), Value::Array(b)) => same_entries(a, b),
        _ => false,
    }
}

/// Whether two arrays have the same pairs in the same order.
#[cycle(comparing)]
fn same_entries(a: &PhpArray, b: &PhpArray) -> bool
    ensures { result ≡ identical_entries (entries_of a.now.pairs) (entries_of b.now.pairs) }
{
    match &a.columns {
        None => b.is_empty(),
        Some(left) => match &b.columns {
            None => a.is_empty(),
            Some(right) => same_columns(left, right),
        },
    }
}

/// Whether two arrays have the same pairs in the same order, by their columns.
#[cycle(comparing)]
fn same_columns(a: &Columns, b: &Columns) -> bool
    ensures { result ≡ identical_entries (entries_of a.now.pairs) (entries_of b.now.pairs) }
{
    let n = a.len();
    if b.len() != n {
        return false;
    }
    for at in 0..n {
        let left = a.kept.at(a.start, a.gone, at);
        let right = b.kept.at(b.start, b.gone, at);
        if !left.is(right) {
            return false;
        }
        let mine = nth_value(&a.values, a.start, a.gone, at);
        let other = nth_value(&b.values, b.start, b.gone, at);
        if !same(mine, other) {
            return false;
        }
    }
    true
}
