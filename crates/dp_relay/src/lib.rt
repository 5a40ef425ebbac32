//! One link of a proxy, served: an engine is joined to its IDE, and an IDE is answered.
#![tactic(auto)]

mod commands;
mod ends;
mod engines;
mod errors;
mod lanes;
mod registrations;

pub use ends::{LaneEnd, RelayEnd};
pub use engines::serve_engine;
pub use errors::RelayError;
pub use registrations::serve_registration;
