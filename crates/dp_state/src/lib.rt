//! The states of a program that runs, and the steps on a state that evaluate nothing.
#![tactic(auto)]

mod calls;
mod constants;
mod copies;
mod declarations;
mod entries;
mod faults;
mod frames;
mod functions;
mod hashed;
mod lookups;
mod moments;
mod places;
mod start;
mod state;
mod statuses;
mod steps;
mod vars;

pub use declarations::Declared;
pub use moments::{FatalKind, Moment, MomentKind, Outcome, Path};
pub use state::{Fault, Frame, FrameKind, Frames, State};
pub use statuses::{KILLED_STATUS, UNFINISHED_STATUS, status};
pub use steps::{FRAME_LIMIT, OUTPUT_LIMIT};
pub use vars::{Slot, Vars};
