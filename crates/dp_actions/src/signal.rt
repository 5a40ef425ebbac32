//! How statements end.

use dp_value::Value;

/// How a statement ends.
#[derive(Drop)]
pub enum Signal {
    /// On with what follows it.
    Next,
    /// Out of so many loops, 1 at least.
    Break(u32),
    /// On with the loop of this number, counted from the innermost, 1.
    Continue(u32),
    /// Out of the function or the file, with this value.
    Return(Value),
}
