//! What holds of every session of a proxy, in plain words.
#![tactic(auto)]

mod laws;

pub use laws::{in_plain_words, running_lane_is_isolated};
