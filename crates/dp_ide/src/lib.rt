//! The scripted IDE: a script is read, and played over a link to an engine.
#![tactic(auto)]

mod acts;
mod contents;
mod errors;
mod heard;
mod instruction;
mod laws;
mod lines;
mod plays;
mod readers;
mod script;
mod texts;
mod waits;

pub use dp_bytes::Memory;
pub use errors::IdeError;
pub use instruction::{Act, Instruction};
pub use laws::{one_end, one_message};
pub use plays::play;
pub use script::Script;
