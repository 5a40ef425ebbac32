//! Records of sessions: a session is served and its record written, or a record is read and judged, whatever a command
//! means.
#![tactic(auto)]

mod audits;
mod balances;
mod entry;
mod laws;
mod lines;
mod readings;
mod records;
mod sessions;
mod statuses;
mod tape_end;
mod tapes;
mod texts;
mod verdict;

pub use dp_bytes::Memory;
pub use entry::{Entry, Stream};
pub use laws::one_verdict;
pub use records::audit;
pub use sessions::Recorded;
pub use tape_end::{Ended, TapeEnd};
pub use tapes::tape;
pub use verdict::{AuditError, Verdict};
