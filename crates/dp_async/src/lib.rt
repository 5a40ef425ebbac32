//! A session of the engine that listens while its program runs: a program in a loop that never ends can be stopped.
#![tactic(auto)]

mod answers;
mod arrival;
mod beside;
mod commands;
mod errors;
mod listener;
mod reader;
mod service;

pub use arrival::Arrival;
pub use beside::serve_async;
pub use dp_bytes::Memory;
pub use dp_engine::{ServeEnd, Served, Steps};
pub use errors::AsyncError;
pub use listener::BYTE_LIMIT;
pub use service::{AsyncServed, serve_polled};
