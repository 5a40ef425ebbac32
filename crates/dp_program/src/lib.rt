//! Programs whose files lie on a shelf, and their run, with its output on a sink.
#![tactic(auto)]

mod ends;
mod errors;
mod fetches;
mod programs;
mod runs;

pub use ends::judge;
pub use errors::{ProgramError, RunError};
pub use fetches::fetch_files;
pub use programs::{fetch_program, make_program};
pub use runs::run;
