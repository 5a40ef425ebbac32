//! The registry shared by threads: each call entered in one legal journal.
#![tactic(auto)]

mod desk;
mod held;
mod turns;

pub use desk::{Clerk, Desk};
