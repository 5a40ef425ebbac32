//! Sessions over a link: commands are read in whatever pieces they come, each whole one is answered, and its packets
//! are sent. What a command means is left to whoever answers.
#![tactic(auto)]

mod conversation;
mod laws;
mod link;
mod puts;
mod responder;

pub use conversation::{Conversation, Next};
pub use dp_bytes::Memory;
pub use laws::{feeding_goes_on, one_session_grows};
pub use link::{BYTE_LIMIT, Fault, SessionOver, converse, deliver, send};
pub use puts::{append_packets, put_unless_empty};
pub use responder::{Answer, Responder};
