//! Why a machine refuses a write or an evaluation.

/// Why a write or an evaluation is refused.
#[derive(Clone, Copy, Debug, PartialEq, Eq)]
pub enum StepError {
    /// The evaluation does not hold: it is fatal, ends the program, or has too many moments.
    Fatal,
    /// The level has no frame.
    NoFrame,
    /// There is no such place, or it cannot hold the value.
    NoPlace,
    /// Out of memory.
    Memory,
}
