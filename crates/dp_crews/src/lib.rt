//! All links of a proxy, served: so many IDEs and so many engines, by a crew of workers.
#![tactic(auto)]

mod accounts;
mod crew;
mod errors;
mod hires;
mod ides;
mod relays;
mod sessions;
mod summaries;
mod tallies;
mod tasks;
mod twins;

pub use errors::AllError;
pub use relays::{Sizes, serve_all};
pub use summaries::Summary;
pub use tallies::Tally;
