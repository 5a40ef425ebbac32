//! The features of the engine: their names, their values, and what they can be set to.
#![tactic(auto)]

mod feature;
mod features;
mod setting;

pub use dp_bytes::Memory;
pub use feature::Feature;
pub use features::Features;
pub use setting::Setting;
