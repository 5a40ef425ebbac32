//! Tests of a desk and of a post, between two threads and in turn. A crate with tests is proved twice, so they stand
//! apart, and what they call stands among them.
#![tactic(auto)]

#[cfg(test)]
mod desk_in_turn;
#[cfg(test)]
mod desk_tests;
#[cfg(test)]
mod desk_threads;
#[cfg(test)]
mod post_in_turn;
#[cfg(test)]
mod post_tests;
#[cfg(test)]
mod post_threads;
