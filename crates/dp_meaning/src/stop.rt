//! Where runs stop.

use dp_state::{Moment, Outcome, State};

/// Where a run of a program stopped.
#[derive(Debug, Drop)]
pub enum Stop {
    /// At this moment, in the state after its writes.
    At(Moment, State),
    /// At its end.
    Ended(Outcome, State),
}
