//! The outside as the system gives it: sources over readers, sinks over writers, a shelf over files, links and gates
//! over TCP, and jobs in threads. Nothing is claimed of what these give.
#![tactic(auto)]

mod adapters;
mod streams;
mod tcp;
mod threads;
mod transfers;

pub use adapters::{FileShelf, ReaderSource, WriterSink};
pub use streams::{TcpSink, TcpSource};
pub use tcp::{TcpGate, TcpNet};
pub use threads::ThreadSpawner;
