//! A gateway for the Debug Adapter Protocol: its requests over one session of the engine.
#![tactic(auto)]

mod breakpoints;
mod effects;
mod gateway;
mod replies;
mod service;

pub use breakpoints::Kept;
pub use dp_bodies::DapError;
pub use dp_bytes::Memory;
pub use effects::DapAnswer;
pub use gateway::Gateway;
pub use service::serve_dap;
