//! The top call: the words of a command line, and what they do.
#![tactic(auto)]

mod commands;
mod dap;
mod engine;
mod engines;
mod failures;
mod ide;
mod lines;
mod listener;
mod numbers;
mod objects;
mod proxy;
mod records;
mod replay;
mod run;
mod sessions;
mod soak;
mod statuses;
mod talk;
mod top_call;

pub use top_call::top;
