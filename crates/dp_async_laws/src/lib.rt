//! What holds of every session that listens.
#![tactic(auto)]

mod laws;

pub use laws::{
    break_is_refused, heard_is_the_run, listening_changes_nothing, looks_are_moments,
    replies_show_the_run,
};
