//! What property_set and eval do to a program that stands at a moment, and what they are answered.
#![tactic(auto)]

mod commands;
mod evaluator;
mod places;
mod requests;
mod responses;

pub use commands::{Written, write_response};
pub use dp_bytes::Memory;
pub use dp_view::ViewError;
pub use evaluator::Evaluator;
