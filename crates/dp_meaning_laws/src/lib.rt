//! What holds of every run of a program, whatever is written at its moments.
#![tactic(auto)]

mod laws;

pub use laws::{
    answers_tell_writes, moments_are_numbered, more_turns_and_frames_change_no_part,
    more_turns_and_frames_change_no_program, more_turns_change_no_loop, past_stands,
    places_have_code, states_are_of_their_bundle,
};
