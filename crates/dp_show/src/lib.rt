//! The command `show`: the elements of the packets that are read, each on a line.
#![tactic(auto)]

mod errors;
mod laws;
mod lines;

pub use dp_bytes::Memory;
pub use errors::ShowError;
pub use laws::ends_apart;
pub use lines::show;
