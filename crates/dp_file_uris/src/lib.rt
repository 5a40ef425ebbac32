//! The files of a program by their names: what a value of `-f` names, and that the URIs which packets show are read
//! back.
#![tactic(auto)]

mod files;
mod laws;

pub use dp_bytes::Memory;
pub use files::{decoded, requested_file};
pub use laws::file_uris_are_read_back;
