//! Dialers, gates and nets in memory: they give the links that they were made with, and fail where they are told to.
#![tactic(auto)]

mod dialer;
mod gate;
mod links;
mod net;

pub use dialer::{DialPart, ListDialer};
pub use gate::{GatePart, ListGate};
pub use net::{ListNet, NetPart};
