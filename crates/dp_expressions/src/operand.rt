//! What an expression is read in.

use dp_tree::{BinaryOp, Expression, Place};

/// What an expression begins with: a place, a place with `[]` behind it, or an operand that is neither.
#[derive(Debug, Drop)]
pub enum Operand {
    Place(Place),
    Push(Place),
    Other(Expression),
}

/// What is read one level of nesting down: an expression, what may stand right of a `??`, one operand with what stands
/// before it, or an index in its brackets.
#[derive(Clone, Copy, Debug, PartialEq, Eq)]
pub enum Part {
    Whole,
    Coalesce,
    Alone,
    Index,
}

/// How an assignment makes its value.
#[derive(Clone, Copy, Debug, PartialEq, Eq)]
pub enum Assignment {
    Plain,
    Compound(BinaryOp),
    Coalesce,
}
