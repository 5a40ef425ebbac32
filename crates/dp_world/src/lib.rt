//! Lists of events, replayed with engines in memory: the transcript says what each IDE and each engine received, and
//! a tally counts it.
#![tactic(auto)]

mod engine;
mod engines;
mod errors;
mod lent;
mod lines;
mod links;
mod numbers;
mod shown;
mod tallies;
mod world;
mod writes;

pub use engines::Engines;
pub use errors::ReplayError;
pub use numbers::Tally;
pub use tallies::tally;
pub use writes::replay;
