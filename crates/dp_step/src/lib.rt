//! A program that stops at each of its moments and goes on from there.
#![tactic(auto)]

mod apart;
mod calls;
mod deep_turns;
mod errors;
mod finish;
mod machine;
mod past;
mod small;
mod statements;
mod steps;
mod tests;
mod turns;
mod writes;

pub use apart::evaluation;
pub use errors::StepError;
pub use machine::{Machine, Progress};
pub use steps::Steps;
