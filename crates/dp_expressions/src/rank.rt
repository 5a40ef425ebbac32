//! The ranks of the operators that join operands from left to right.

/// A rank of operators. Those of a later rank bind more tightly.
#[derive(Clone, Copy, Debug, PartialEq, Eq)]
pub enum Rank {
    Or,
    And,
    Equality,
    Comparison,
    Concatenation,
    Sum,
    Product,
}
