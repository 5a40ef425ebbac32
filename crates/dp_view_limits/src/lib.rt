//! What a debugger shows of a state within so many bytes of a packet's text: it is measured before it is made.
#![tactic(auto)]

mod counts;
mod digits;
mod limits;
mod measures;
mod sizes;

pub use dp_view::ViewError;
pub use limits::{limited_context, limited_property, limited_shown};
