//! The operations of the language on values, as tables of cases: the text of a value, the operators and the built-in
//! functions.
#![tactic(auto)]

mod arguments;
mod arithmetic;
mod arrays;
mod builtins;
mod comparisons;
mod indices;
mod integers;
mod operators;
mod parts;
mod scalars;
mod texts;
mod types;

pub use builtins::builtin;
pub use indices::{Found, copy, find, index, under};
pub use integers::{comparison, integer_result};
pub use operators::{binary, unary};
pub use texts::text;
