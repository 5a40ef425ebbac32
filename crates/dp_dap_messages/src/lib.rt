//! What a gateway for the Debug Adapter Protocol reads and writes: its requests and what they ask for, the lines that a
//! session is sent, and the messages.
#![tactic(auto)]

mod arguments;
mod effects;
pub mod lines;
pub mod messages;
pub mod news;
pub mod shown;
mod table;

pub use arguments::{Asked, Hits, Wish, read_wish};
pub use dp_bytes::Memory;
pub use effects::{News, Refusal, StopReason};
pub use lines::Place;
pub use table::{RequestName, Stage};
