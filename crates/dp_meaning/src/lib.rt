//! What programs do: a recursive meaning, moment by moment, and its evaluator.
#![tactic(auto)]

mod applied_writes;
mod assignments;
mod calls;
mod evaluator;
mod expressions;
mod indices;
mod literals;
mod loops;
mod moment_writes;
mod moments;
mod operators;
mod outside;
mod pure;
mod quiet;
mod runs;
mod statements;
mod stop;
mod values;
mod whole;
mod write_answers;
mod writes;

pub use dp_actions::{Halt, Signal};
pub use moment_writes::{EVALUATION_LIMIT, evaluation, write_all};
pub use moments::moment_of;
pub use quiet::is_quiet;
pub use runs::run_to;
pub use stop::Stop;
pub use values::value_in;
pub use whole::Whole;
pub use write_answers::write_in;
pub use writes::{NumberedWrite, Write, WriteAnswer, WriteFault};
