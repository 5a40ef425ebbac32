//! All links of a proxy served at once, over links that wait for each other and over links in memory. A crate with
//! tests is proved twice, so they stand apart, and what they call stands among them.
#![tactic(auto)]

#[cfg(test)]
mod counted;
#[cfg(test)]
mod dialers;
#[cfg(test)]
mod gates;
#[cfg(test)]
mod links;
#[cfg(test)]
mod tests;

#[cfg(test)]
pub use counted::CountedGate;
#[cfg(test)]
pub use dialers::PairDialer;
#[cfg(test)]
pub use gates::PairGate;
#[cfg(test)]
pub use links::{Link, Links, SeenSink, StagedSource};
