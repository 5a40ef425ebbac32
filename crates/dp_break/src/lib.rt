//! The breakpoints of a session: which are held, when they hit, where they stop the program, and what the commands on
//! them ask for and answer.
#![tactic(auto)]

mod answers;
mod breakpoint;
mod breaks;
mod change;
mod conditions;
mod errors;
mod hits;
mod laws;
mod lines;
mod lists;
mod moments;
mod new_breakpoints;
mod notices;
mod request;
mod responses;
mod shown;
mod wishes;
mod words;

pub use answers::answer_breakpoints;
pub use breakpoint::{BreakChange, BreakRequest, Breakpoint};
pub use breaks::Breaks;
pub use change::breakpoint_change;
pub use dp_bytes::Memory;
pub use dp_packet::{BreakKind, ErrorCode, HitRule};
pub use errors::BreakError;
pub use hits::is_of_function;
pub use laws::{
    counting_by_moments, nothing_without_hits, stops_without_breakpoints, true_by_value,
};
pub use request::breakpoint_request;
pub use shown::breakpoint_line;
pub use wishes::{Answered, Wishes};
