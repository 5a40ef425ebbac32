//! What holds of every session over the gateway.
#![tactic(auto)]

mod laws;

pub use laws::gateway_shows_the_run;
