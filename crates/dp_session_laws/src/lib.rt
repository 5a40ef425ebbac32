//! What holds of every session.
#![tactic(auto)]

mod laws;

pub use laws::{
    alone_is_whole_packets, more_commands_only_add, passing_is_answering, pieces_are_the_output,
    refused_exactly, replies_show_the_run, session_is_the_run, watching_changes_nothing,
    writes_are_those_accepted,
};
