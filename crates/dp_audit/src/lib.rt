//! The audit of a recorded session: a session of the engine is served and its record written, or a record is read and
//! judged.
#![tactic(auto)]

mod records;
mod sessions;
mod tapes;

pub use dp_records::{AuditError, Ended, TapeEnd, Verdict};
pub use records::audit;
pub use tapes::tape;
