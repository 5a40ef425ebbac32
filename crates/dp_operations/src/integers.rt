//! Operators between integers, which take no memory.

ghost use Rattle.std.specs.Prelude.{◌≡◌, IfSome, Ok};
ghost use Rattle.dp_value.specs.Data.{boolean, integer};
ghost use Rattle.dp_operations.specs.Binary.{binary_of};

use dp_tree::BinaryOp;

/// The integer that an operator makes of two. `None` says nothing. Takes no memory.
pub fn integer_result(op: BinaryOp, a: i64, b: i64) -> Option<i64>
    ensures { IfSome result (λ n. binary_of op (integer a) (integer b) ≡ Ok (integer n)) }
{
    match op {
        BinaryOp::Add => a.checked_add(b),
        BinaryOp::Sub => a.checked_sub(b),
        BinaryOp::Mul => a.checked_mul(b),
        BinaryOp::Rem => {
            if b == 0 {
                return None;
            }
            Some(a.wrapping_rem(b))
        }
        _ => None,
    }
}

/// Whether an operator between two integers gives true. `None` says nothing. Takes no memory.
pub fn comparison(op: BinaryOp, a: i64, b: i64) -> Option<bool>
    ensures { IfSome result (λ holds. binary_of op (integer a) (integer b) ≡ Ok (boolean holds)) }
{
    match op {
        BinaryOp::Equal | BinaryOp::Identical => Some(a == b),
        BinaryOp::NotEqual | BinaryOp::NotIdentical => Some(a != b),
        BinaryOp::Less => Some(a < b),
        BinaryOp::LessEqual => Some(a <= b),
        BinaryOp::Greater => Some(a > b),
        BinaryOp::GreaterEqual => Some(a >= b),
        _ => None,
    }
}
