//! The registry of a proxy: which IDE holds which key, which sessions are live, and the journal of all calls.
#![tactic(auto)]

mod decisions;
mod entries;
mod entry;
mod known;
mod pass;
mod places;
mod refusal;
mod registry;
mod sessions;

pub use dp_bytes::Memory;
pub use entry::{AdmitReply, Entry};
pub use pass::Pass;
pub use refusal::Refusal;
pub use registry::Registry;
