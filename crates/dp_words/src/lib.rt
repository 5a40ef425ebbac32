//! The words of a command line, and what they ask for.
#![tactic(auto)]

mod names;
mod parser;
mod plain;
mod words;

pub use dp_bytes::Memory;
pub use words::{
    Address, Command, DEFAULT_BOUND, Engine, Ide, Program, Proxy, Replay, Soak, Talk, read_words,
};
