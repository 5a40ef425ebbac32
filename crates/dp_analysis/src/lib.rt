//! What is known of a program from its trees alone: in which expressions no moment comes, what may come to a deep call
//! (more than 8 calls, each within the one before, or an include), and which statements have no moment that is watched.
#![tactic(auto)]

mod deep;
mod loud;
mod names;
mod quiet;
mod still;

pub use deep::{any_deep, is_deep, statement_is_deep};
pub use loud::loud_names;
pub use names::DeepNames;
pub use quiet::{is_free, statement_is_quiet};
pub use still::{all_momentless, is_momentless};
