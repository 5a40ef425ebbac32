//! Writes from outside, and what they answer.

use dp_state::Path;
use dp_tree::Expression;
use dp_value::Value;

/// A change of a state from outside, at a moment.
#[derive(Debug, Drop)]
pub enum Write {
    /// Gives a place a value. The path begins at a variable of the frame at the level, where 0 is the top frame, for
    /// the context 0, and at a global variable for the context 1.
    Place {
        level: u32,
        context: u32,
        path: Path,
        value: Value,
    },
    /// Evaluates an expression in the top frame.
    Evaluate(Expression),
}

/// Why a place is not written.
#[derive(Clone, Copy, Debug, PartialEq, Eq)]
pub enum WriteFault {
    /// The level has no frame.
    NoFrame,
    /// There is no such place, or it cannot hold the value.
    NoPlace,
}

/// What a write gives in a state.
#[derive(Debug, Drop)]
pub enum WriteAnswer {
    /// The place has the value.
    Set,
    /// The evaluation holds, with this value.
    Value(Value),
    /// The evaluation does not hold: it is fatal, ends the program, or has too many moments.
    Fatal,
    /// The level has no frame.
    NoFrame,
    /// There is no such place, or it cannot hold the value.
    NoPlace,
}

/// A write and the number of the moment at which it is made.
#[derive(Debug, Drop)]
pub struct NumberedWrite {
    pub moment: u64,
    pub write: Write,
}
