//! Expressions: their grammar as rules over tokens, and the functions that read them. A part of an expression is read
//! with as many levels of nesting as it is given; what stands behind it is left to the caller. Statements come a layer
//! above.
#![tactic(auto)]

mod expressions;
mod grammar;
mod inside;
mod kept;
mod ladders;
mod laws;
mod nodes;
mod openings;
mod operand;
mod operands;
mod pieces;
mod places;
mod rank;
mod token_values;

pub use expressions::{expression, place};
pub use kept::both;
pub use laws::reads_the_grammar;
pub use operand::{Assignment, Operand, Part};
pub use rank::Rank;
