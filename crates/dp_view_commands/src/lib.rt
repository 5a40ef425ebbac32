//! What the commands answer that look at a program: stack_depth, stack_get, context_names, context_get, property_get,
//! property_value and source.
#![tactic(auto)]

mod packets;
mod source;
mod stacks;
mod values;
mod views;

pub use dp_bytes::Memory;
pub use dp_view::ViewError;
pub use views::view_response;
