//! The lanes of a session between an engine and its IDE, which pass whole frames alone.
#![tactic(auto)]

mod counts;
mod lane;
mod laws;
mod moves;

pub use counts::count_frames;
pub use dp_bytes::Memory;
pub use lane::{Lane, LaneKind, PIECE_LIMIT};
pub use laws::{
    bad_commands_stay_bad, dropped_has_passed, fed_has_passed, front_of_frames_is_good,
    handed_out_in_all, new_has_passed_nothing, passed_all_before_bad, passed_all_that_came,
    passed_is_front,
};
pub use moves::{bad_place, carry};
